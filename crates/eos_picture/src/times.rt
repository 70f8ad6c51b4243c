//! When the records at a row's marks were written.

use eos_base::Listed;

/// The times of the records at a row's marks, in milliseconds since 1970-01-01T00:00Z, each with its offset.
#[derive(Drop)]
pub struct Times {
    pub at: Listed<(u64, i64)>,
}
