//! The leader epoch that a value names, which not every reader of it asks for.

ghost use Rattle.std.specs.Prelude.{◌≡◌, ℤ};
ghost use Rattle.eos_offsets.specs.LeaderEpochs.{IsOfText, leader_epoch_from, leader_epoch_of, or_none};
ghost use Rattle.eos_offsets.specs.Text.{IsValueText};

use crate::value::{LEADER_EPOCH_VERSION, NO_LEADER_EPOCH};
use eos_base::RecordFault;
use eos_wire::Fields;

/// Reads the leader epoch, behind the version and the offset.
#[tactic(auto, unfolding(crate::specs::LeaderEpochs::leader_epoch_from))]
fn read_leader_epoch(mut fields: Fields<'_>) -> Result<i32, RecordFault>
    ensures { result ≡ leader_epoch_from fields.entry }
{
    let version = fields.i16().ok_or(RecordFault::Short)?;
    fields.i64().ok_or(RecordFault::Short)?;
    let epoch = fields.i32().ok_or(RecordFault::Short)?;
    if version == LEADER_EPOCH_VERSION {
        Ok(epoch)
    } else {
        Err(RecordFault::Version)
    }
}

/// No leader epoch where none was read.
fn named_or_none(read: Result<i32, RecordFault>) -> i32
    ensures { result ≡ or_none read }
{
    match read {
        Ok(epoch) => epoch,
        Err(_) => NO_LEADER_EPOCH,
    }
}

/// The leader epoch that a value names, that of the last record which its group had read: -1 where it names none, as those of
/// versions below 3 do. Of bytes that are no value nothing is said.
pub fn view_leader_epoch(bytes: &[u8]) -> i32
    ensures answer { result ≡ leader_epoch_of bytes.now }
    ensures text { (offset : ℤ) (value : IsValueText bytes.now offset) → IsOfText value (leader_epoch_of bytes.now) }
{
    named_or_none(read_leader_epoch(Fields::new(bytes)))
}
