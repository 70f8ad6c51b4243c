//! What is wanted of a data record.

/// What is wanted of the data records of a log, beside their offsets and what became of them. Each wants what the one before it
/// does.
#[derive(Clone, Copy)]
pub enum Wanted {
    /// That they are there: those that an application reads.
    Presence,
    /// Their claims: those that an application writes.
    Claims,
    /// Their keys and values: those of Kafka's own logs.
    Texts,
}
