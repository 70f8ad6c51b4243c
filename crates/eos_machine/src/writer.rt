//! By whom a batch is written.

/// The fields of a batch that say who wrote it.
#[derive(Clone, Copy)]
pub struct Writer {
    /// 0 of a plain batch, 16 of transactional data, 48 of an end marker.
    pub attributes: i16,
    pub producer: i64,
    pub epoch: i16,
    pub sequence: i32,
}
