//! How a version of a message writes lengths.

/// The form of a version's lengths and counts. All else stands alike in both.
#[derive(Clone, Copy)]
pub enum Form {
    /// Numbers of a fixed width.
    Plain,
    /// KIP-482: unsigned varints of one more, and sections of tagged fields.
    Flexible,
}
