//! Where a report goes: to the standard output, or to a file that is whole or not there. So with a page.

use eos_disk::{ChangeFault, Disk, DiskFault, DiskMut, HostDisk, HostFile, begin_file};
use eos_ending::{Ending, STANDARD, end, end_unchanged, fill_file, leave_file, make_file};
use eos_text::finish;
use std::alloc::Global;
use std::io;

/// The file of a report, which is begun beside the place where it is to stand.
#[derive(Drop)]
pub(crate) struct ReportFile<'a> {
    path: &'a str,
    /// Where it stands until it replaces the file of that path, if it may.
    beside: Option<String>,
    file: HostFile<'a>,
}

/// A path, and one beside it.
#[derive(Clone, Copy)]
struct Paths<'a> {
    path: &'a str,
    beside: &'a str,
}

/// Begins the file of a report, before the work. Otherwise says why not, and gives the exit status.
pub(crate) fn begin_report<'a>(
    rt: &'a HostRuntime,
    path: &'a str,
    force: bool,
) -> Result<ReportFile<'a>, u8> {
    // (what names no file is refused by the words of a new one)
    if !force || path.is_empty() || path.ends_with('/') {
        let file = make_file(rt, path)?;
        return Ok(ReportFile {
            path,
            beside: None,
            file,
        });
    }
    match may_go(rt.alloc(), &HostDisk { rt }, path) {
        Ok(()) => begin_beside(rt, path),
        Err(fault) => Err(end_unchanged(rt, path, fault)),
    }
}

/// Whether what stands at a path may be replaced. A folder, a pipe or a device may not, nor what can't be opened.
fn may_go(alloc: Global, disk: &HostDisk<'_>, path: &str) -> Result<(), ChangeFault> {
    if !disk.stands(path) {
        return Ok(());
    }
    match disk.open(alloc, path) {
        Ok(file) if !path.starts_with("/dev/") && is_file(&file) => Ok(()),
        Err(DiskFault::PermissionDenied) => Err(ChangeFault::PermissionDenied),
        Err(DiskFault::OutOfMemory) => Err(ChangeFault::OutOfMemory),
        _ => Err(ChangeFault::ThereAlready),
    }
}

fn is_file(open: &<HostDisk<'_> as Disk>::File) -> bool {
    open.metadata().is_ok_and(|about| about.is_file())
}

/// Begins a file that is to replace the one of this path. Otherwise says why not, and gives the exit status.
fn begin_beside<'a>(rt: &'a HostRuntime, path: &'a str) -> Result<ReportFile<'a>, u8> {
    let Ok(beside) = format!(in rt.alloc(); "{path}.whole") else {
        return Err(end(rt, Ending::OutOfMemory));
    };
    match begin_file(rt.alloc(), &mut HostDisk { rt }, beside.as_str()) {
        Ok(file) => Ok(ReportFile {
            path,
            beside: Some(beside),
            file,
        }),
        // a run that was killed left it, or another one writes it
        Err(ChangeFault::ThereAlready) => {
            let there = beside.as_str();
            Err(end_unchanged(rt, there, ChangeFault::ThereAlready))
        }
        Err(fault) => Err(end_unchanged(rt, path, fault)),
    }
}

/// Writes a report to the file that was begun for it, or drops the file where there is none. Gives the exit status of the run, which
/// has this one without it.
pub(crate) fn end_report(
    rt: &HostRuntime,
    begun: ReportFile<'_>,
    text: Option<String>,
    status: u8,
) -> u8 {
    let ReportFile { path, beside, file } = begun;
    let Some(beside) = beside else {
        return fill_file(rt, path, file, text, status);
    };
    let paths = Paths {
        path,
        beside: beside.as_str(),
    };
    match replace(rt.alloc(), &mut HostDisk { rt }, paths, file, text) {
        Ok(()) => status,
        Err(fault) => end_unchanged(rt, path, fault),
    }
}

/// Ends a file that was begun beside a path, and puts it in the place of what stands there; or drops it, where there is no text.
fn replace(
    alloc: Global,
    disk: &mut HostDisk<'_>,
    paths: Paths<'_>,
    file: HostFile<'_>,
    text: Option<String>,
) -> Result<(), ChangeFault> {
    let is_report = text.is_some();
    leave_file(alloc, disk, file, text)?;
    if !is_report {
        return Ok(());
    }
    put_over(alloc, disk, paths)
}

/// Puts a whole file in the place of what stands at its path.
///
/// # Errors
/// What stands there stays; or, where it is gone, the file stands beside it still.
fn put_over(alloc: Global, disk: &mut HostDisk<'_>, paths: Paths<'_>) -> Result<(), ChangeFault> {
    if disk.stands(paths.path) {
        if let Err(fault) = disk.remove(alloc, paths.path) {
            let _ = disk.remove(alloc, paths.beside);
            return Err(fault);
        }
    }
    disk.publish(alloc, paths.beside, paths.path)
}

/// Prints a report, if there is one. Gives the exit status of the run, which has this one without it.
pub(crate) fn print_report(rt: &HostRuntime, text: Option<String>, status: u8) -> u8 {
    let Some(text) = text else {
        return status;
    };
    match finish(&mut io::writer(rt), text.as_bytes()) {
        Ok(()) => status,
        Err(_) => end(rt, Ending::CannotWrite(STANDARD)),
    }
}
