//! `draw`: the picture of a fault of an evidence, as a new file.

use crate::folder::{Asked, Undrawn, draw_folder_to};
use eos_disk::HostDisk;
use eos_ending::{
    Ending, Meter, Progress, STANDARD, Subject, end, end_fewer, end_unchanged, end_unread,
};
use eos_words::Draw;
use std::io;
use std::sync::Wait;
use std::thread::Threads;

/// Draws the picture that the words ask for into a new file, tells how large it is, and gives the exit status.
#[inline(never)]
pub fn draw_folder(
    rt: &HostRuntime,
    threads: &(impl Threads + Wait + Sync),
    words: &Draw<'_>,
) -> u8 {
    let meter = Meter::start(rt, false, false);
    let progress = Progress::begin(&meter, Subject::Only);
    let disk = HostDisk { rt };
    let asked = Asked {
        disk: &disk,
        folder: words.folder,
        file: words.file,
        fault: words.fault,
        around: words.around,
        watch: &progress,
    };
    match draw_folder_to(
        rt.alloc(),
        threads,
        &asked,
        &mut HostDisk { rt },
        &mut io::writer(rt),
    ) {
        Ok(status) => status,
        Err(Undrawn::Unwritten(fault)) => end_unchanged(rt, words.file, fault),
        Err(Undrawn::Refused(fault)) => {
            let status = end_unread(rt, Subject::Only, &fault);
            drop(fault);
            status
        }
        Err(Undrawn::TooFew(count)) => end_fewer(rt, count as u64),
        Err(Undrawn::CannotPrint) => end(rt, Ending::CannotWrite(STANDARD)),
    }
}
