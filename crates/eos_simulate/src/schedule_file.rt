//! The file of a schedule.

ghost use Rattle.std.specs.Prelude.{IfOk};
ghost use Rattle.eos_simulate.specs.Folders.{IsScheduleAt};

use eos_disk::{Disk, FolderFault, read_given};
use eos_history_lines::{Schedule, ScheduleFault, schedule_of};
use std::alloc::Global;
use std::io::Read;

/// Why there is no schedule.
#[derive(Drop)]
pub(crate) enum Unread {
    /// Its file can't be read, or memory was refused.
    File(FolderFault),
    /// A line of it is refused.
    Refused(ScheduleFault),
}

/// The schedule in this file, or that the input says where the name is `-`.
#[tactic(auto, using(crate::proofs::ScheduleTexts::says))]
pub(crate) fn read_schedule<D: Disk, R: Read>(
    alloc: Global,
    disk: &D,
    path: &str,
    input: &mut R,
) -> Result<Schedule, Unread>
    ensures { IfOk result (IsScheduleAt (D.holds disk.now) path.now (R.remaining input.old) (R.remaining input.new)) }
{
    let text = match read_given(alloc, disk, path, input) {
        Ok(text) => text,
        Err(fault) => return Err(Unread::File(fault)),
    };
    match schedule_of(alloc, text.as_slice()) {
        Ok(schedule) => Ok(schedule),
        Err(fault) => Err(Unread::Refused(fault)),
    }
}
