//! `fold`: the folds of segments where they lie.

use crate::{FoldGiven, Folded, FoldingFault, fold_folders};
use eos_disk::{FolderFault, HostDisk};
use eos_ending::{Ending, STANDARD, Subject, end, end_unchanged, end_unread};
use eos_words::Fold;

/// Folds the segments of the folders that the words name, says on standard output how many, and gives the exit status.
#[inline(never)]
pub fn fold_partitions(rt: &HostRuntime, words: &Fold<'_>) -> u8 {
    let given = FoldGiven {
        manifest: words.manifest,
        out: words.out,
        folders: words.folders.as_slice(),
    };
    match fold_folders(rt.alloc(), &mut HostDisk { rt }, given) {
        Ok(folded) => say(rt, folded),
        Err(fault) => {
            let status = refuse(rt, words, &fault);
            drop(fault);
            status
        }
    }
}

fn say(rt: &HostRuntime, folded: Folded) -> u8 {
    let Folded { segments, bytes } = folded;
    match print!(rt; "folded segments={segments} bytes={bytes}\n") {
        Ok(()) => 0,
        Err(_) => end(rt, Ending::CannotWrite(STANDARD)),
    }
}

/// Says why not all segments were folded, and gives the exit status.
fn refuse(rt: &HostRuntime, words: &Fold<'_>, fault: &FoldingFault<'_>) -> u8 {
    match fault {
        FoldingFault::Unread(FolderFault::Manifest(fault, cause)) => {
            end(rt, Ending::Refused(words.manifest, fault.name(), cause))
        }
        FoldingFault::Unread(fault) => end_unread(rt, Subject::Only, fault),
        FoldingFault::NoName(path) => end(
            rt,
            Ending::Unfit(path, "not named TOPIC-N, as the folder of a partition"),
        ),
        FoldingFault::NoEnd(path) => end(
            rt,
            Ending::Unfit(path, "the manifest has no end of this partition"),
        ),
        FoldingFault::SameName(path) => end(
            rt,
            Ending::Unfit(path, "another folder of this partition is given"),
        ),
        FoldingFault::CannotWrite(path, why) => end_unchanged(rt, path, *why),
        FoldingFault::OutOfMemory => end(rt, Ending::OutOfMemory),
    }
}
