//! Which records a reader of committed records is given, and which partitions are of the offsets log.

ghost use Rattle.std.specs.Prelude.{◌≡◌};
ghost use Rattle.eos_commits.specs.Visible.{is_visible as is_visible_fate};
ghost use Rattle.eos_commits.specs.Commits.{is_same as is_same_text, is_offsets_part};

use eos_fold::Fate;
use eos_kept::Part;

/// Whether a reader of committed records is given a record of this fate.
pub fn is_visible(fate: Fate) -> bool
    ensures { result ≡ is_visible_fate fate }
{
    match fate {
        Fate::Plain | Fate::Committed => true,
        Fate::Aborted | Fate::Waiting(_) => false,
    }
}

/// Whether two texts are the same bytes. `==` of short ones is faster than their order.
pub(crate) fn is_same(a: &[u8], b: &[u8]) -> bool
    ensures { result ≡ is_same_text a.now b.now }
{
    a == b
}

/// Whether the partition is one of the offsets log.
pub(crate) fn is_of_offsets(part: &Part) -> bool
    ensures { result ≡ is_offsets_part part.now }
{
    is_same(part.topic().as_slice(), b"__consumer_offsets".as_slice())
}
