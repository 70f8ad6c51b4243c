//! What a listing has.

ghost use Rattle.std.specs.Prelude.{◌≡◌, ◌≤ℤ◌, pos};

use crate::Reading;

/// Which records are listed, and what of them.
#[derive(Clone, Copy)]
pub struct ListingOptions {
    /// Whether each record is followed by its timestamp and headers.
    pub headers: bool,
    /// As what data records are read that are followed by what they say; `None` where they aren't.
    pub decode: Option<Reading>,
    /// The first offset that is listed.
    pub from: u64,
    /// The first offset after those that are listed.
    pub to: u64,
}

impl ListingOptions {
    ghost use Rattle.eos_segment.specs.Choosing.{plain_options, is_asked};

    /// Every record, and nothing more of it.
    pub fn plain() -> ListingOptions
        ensures { result ≡ plain_options }
    {
        ListingOptions {
            headers: false,
            decode: None,
            from: 0,
            to: u64::MAX,
        }
    }

    /// Whether the record of this offset is listed.
    pub(crate) fn ask_for(&self, offset: i64) -> bool
        requires { pos 0 ≤ℤ offset }
        ensures { result ≡ is_asked self.now offset }
    {
        let offset = offset as u64;
        self.from <= offset && offset < self.to
    }
}
