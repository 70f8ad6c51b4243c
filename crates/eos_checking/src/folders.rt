//! `check` of folders: reads them one after the other, and tells of each its verdict and what else is wanted.

use crate::check::{Asked, Made, Said, Wanted};
use crate::folder::{Folder, Unchecked, check_folder_to};
use crate::folds::Folded;
use crate::report_file::{ReportFile, begin_report, end_report, print_report};
use crate::terms::Terms;
use eos_disk::HostDisk;
use eos_ending::{
    Ending, Meter, Progress, STANDARD, Subject, end, end_about, end_unread, say_notes,
};
use eos_report::{About, Telling, end_page};
use eos_words::{Check, Demands, VERSION};
use std::alloc::{AllocError, Global};
use std::io;
use std::io::IsTerminal;
use std::thread::Threads;

/// What is said of a word of `--expect` that is none.
const EXPECTATIONS: &str = "--expect takes transactions=N, inputs=N and outputs=N, each once";

/// What is to be done.
#[derive(Clone, Copy)]
struct Work<'w, 'a> {
    words: &'w Check<'a>,
    demands: Demands,
}

/// Why the words don't fit each other, as a line says it.
fn misfit(words: &Check<'_>) -> Option<&'static str> {
    if words.report.is_some() && words.folders.len() > 1 {
        return Some("check --report takes one FOLDER");
    }
    match words.page {
        Some(page) => misfit_of_page(words, page),
        None if words.force && words.report.is_none() => Some(
            "check --force goes with --report or --page",
        ),
        None => None,
    }
}

fn misfit_of_page(words: &Check<'_>, page: &str) -> Option<&'static str> {
    if words.folders.len() > 1 {
        return Some("check --page takes one FOLDER");
    }
    if page == STANDARD {
        return Some("check --page takes a FILE, not -");
    }
    match words.report {
        Some(report) if report == page => Some("check --report and --page take two FILEs"),
        _ => None,
    }
}

/// A check whose lines are written. The files that it leaves are begun, and not ended.
#[derive(Drop)]
pub struct Checked<'a> {
    files: Files<'a>,
    done: Done,
}

impl Checked<'_> {
    /// Whether there is a page that tells of faults, so that their stories and pictures belong into it.
    pub fn has_faulty_page(&self) -> bool {
        match &self.done.report {
            Some(made) => self.done.status == 1 && made.page.is_some(),
            None => false,
        }
    }
}

/// Checks the folders of evidence that the words name, and begins the report and the page of one, if that is asked for, which `end_check`
/// ends. Otherwise says why not, and gives the exit status.
#[inline(never)]
pub fn check_words<'a>(
    rt: &'a HostRuntime,
    threads: &(impl Threads + Sync),
    words: &Check<'a>,
) -> Result<Checked<'a>, u8> {
    if let Some(why) = misfit(words) {
        let _ = eprint!(rt; "eoscheck: {why}\n");
        return Err(2);
    }
    let demands = match words.demands {
        Ok(demands) => demands,
        Err(word) => return Err(end(rt, Ending::Unfit(word, EXPECTATIONS))),
    };
    let work = Work { words, demands };
    let files = begin_files(rt, words.report, words.page, words.force)?;
    let done = check_folders(rt, threads, work);
    Ok(Checked { files, done })
}

/// Ends the files of a check, its page with these stories and pictures, and gives the exit status. Where there was no memory for them,
/// there is neither report nor page.
pub fn end_check(
    rt: &HostRuntime,
    checked: Checked<'_>,
    tellings: Result<Vec<Telling>, AllocError>,
) -> u8 {
    let Checked { files, done } = checked;
    let done = match with_tellings(rt.alloc(), done, tellings) {
        Ok(done) => done,
        Err(_) => Done::with_status(end(rt, Ending::OutOfMemory)),
    };
    end_files(rt, files, done)
}

/// Ends the page with these, if there is one.
fn with_tellings(
    alloc: Global,
    done: Done,
    tellings: Result<Vec<Telling>, AllocError>,
) -> Result<Done, AllocError> {
    let tellings = tellings?;
    let Done {
        status,
        is_last,
        report: made,
    } = done;
    let report = match made {
        Some(made) => Some(ended(alloc, made, tellings.as_slice())?),
        None => None,
    };
    Ok(Done {
        status,
        is_last,
        report,
    })
}

fn ended(alloc: Global, made: Made, tellings: &[Telling]) -> Result<Made, AllocError> {
    let Made { report, page } = made;
    match page {
        None => Ok(Made { report, page: None }),
        Some(mut text) => {
            end_page(alloc, &mut text, tellings)?;
            Ok(Made {
                report,
                page: Some(text),
            })
        }
    }
}

/// The files that are made of a check, begun before it.
#[derive(Drop)]
struct Files<'a> {
    /// That of the report, unless it is printed.
    report: Option<ReportFile<'a>>,
    page: Option<ReportFile<'a>>,
}

/// Begins the files that are asked for. Where one can't be begun, there is none, and it is said why.
fn begin_files<'a>(
    rt: &'a HostRuntime,
    report: Option<&'a str>,
    page: Option<&'a str>,
    force: bool,
) -> Result<Files<'a>, u8> {
    let report = match report {
        None => None,
        Some(STANDARD) => None,
        Some(path) => Some(begin_report(rt, path, force)?),
    };
    let Some(path) = page else {
        return Ok(Files { report, page: None });
    };
    match begin_report(rt, path, force) {
        Ok(page) => Ok(Files {
            report,
            page: Some(page),
        }),
        Err(status) => {
            let _ = end_if_begun(rt, report, None, status);
            Err(status)
        }
    }
}

/// Ends the files that were begun, or drops them where nothing was made, and gives the exit status.
fn end_files(rt: &HostRuntime, files: Files<'_>, done: Done) -> u8 {
    let Done {
        status,
        report: made,
        ..
    } = done;
    let (report, page) = texts_of(made);
    let Files {
        report: begun,
        page: begun_page,
    } = files;
    let status = match begun {
        Some(begun) => end_report(rt, begun, report, status),
        None => print_report(rt, report, status),
    };
    end_if_begun(rt, begun_page, page, status)
}

/// The report's text and the page's.
fn texts_of(made: Option<Made>) -> (Option<String>, Option<String>) {
    match made {
        Some(made) => (made.report, made.page),
        None => (None, None),
    }
}

fn end_if_begun(
    rt: &HostRuntime,
    begun: Option<ReportFile<'_>>,
    text: Option<String>,
    status: u8,
) -> u8 {
    match begun {
        Some(begun) => end_report(rt, begun, text, status),
        None => status,
    }
}

/// Reads folders of evidence, one after the other, and writes the verdict of each on standard output. The status is the greatest.
/// After output that can't be written it stops.
fn check_folders(rt: &HostRuntime, threads: &(impl Threads + Sync), work: Work<'_, '_>) -> Done {
    let words = work.words;
    let meter = Meter::start(
        rt,
        words.progress || !words.quiet && rt.stderr().is_terminal(),
        words.report.is_some(),
    );
    let folders = words.folders.as_slice();
    let mut all = Done::with_status(0);
    for folder in folders {
        let subject = if folders.len() > 1 {
            Subject::Folder(folder)
        } else {
            Subject::Only
        };
        let progress = Progress::begin(&meter, subject);
        let done = check_folder(rt, threads, work, folder, &progress);
        all.status = done.status.max(all.status);
        all.report = done.report;
        if done.is_last {
            break;
        }
    }
    all
}

/// What became of one of several folders, or of all.
#[derive(Drop)]
struct Done {
    status: u8,
    /// Whether output can't be written, so that no further one is looked at.
    is_last: bool,
    /// What was made of it beside its answer, if anything was asked for.
    report: Option<Made>,
}

impl Done {
    fn with_status(status: u8) -> Done {
        Done {
            status,
            is_last: false,
            report: None,
        }
    }
}

/// Checks a folder of the system's disk, and says on standard error what else there is to say.
fn check_folder(
    rt: &HostRuntime,
    threads: &(impl Threads + Sync),
    work: Work<'_, '_>,
    path: &str,
    progress: &Progress<'_>,
) -> Done {
    let asked = asked_by(work, path, progress);
    match check_to(rt, threads, path, &asked, work.words.report) {
        Ok(said) => {
            say_notes(rt, progress.subject, said.notes.as_str());
            say_folds(rt, progress.subject, said.folded, work.words.quiet);
            say_notes(rt, progress.subject, said.unmet.as_str());
            Done {
                status: end_about(rt, progress.subject, Ending::Answered(said.status)),
                is_last: false,
                report: said.report,
            }
        }
        Err(Unchecked::CannotWrite) => Done {
            status: end_about(rt, progress.subject, Ending::CannotWrite(STANDARD)),
            is_last: true,
            report: None,
        },
        Err(Unchecked::Refused(fault)) => {
            Done::with_status(end_unread(rt, progress.subject, &fault))
        }
    }
}

/// The note of a verdict that rests on folds. It names nothing amiss, so `--strict` doesn't ask for it.
fn say_folds(rt: &HostRuntime, subject: Subject<'_>, folded: Folded, quiet: bool) {
    let Folded { folds, segments } = folded;
    if folds > 0 && !quiet {
        let _ = eprint!(rt;
            "{subject}eoscheck: note: {folds} of {segments} segments were judged by folds\n"
        );
    }
}

/// Checks a folder of the system's disk. The lines are written on standard output, or on standard error where the report is written
/// there.
fn check_to(
    rt: &HostRuntime,
    threads: &(impl Threads + Sync),
    path: &str,
    asked: &Asked<'_, Progress<'_>>,
    report: Option<&str>,
) -> Result<Said, Unchecked> {
    let disk = HostDisk { rt };
    let folder = Folder { disk: &disk, path };
    match report {
        Some(STANDARD) => check_folder_to(rt.alloc(), threads, folder, asked, &mut rt.stderr()),
        _ => check_folder_to(rt.alloc(), threads, folder, asked, &mut io::writer(rt)),
    }
}

/// What is asked of the check of a folder.
fn asked_by<'a, 'p>(
    work: Work<'_, 'a>,
    folder: &'a str,
    progress: &'a Progress<'p>,
) -> Asked<'a, Progress<'p>> {
    let words = work.words;
    let about = About {
        version: VERSION,
        folder,
        workers: words.workers.get(),
        folds: 0,
    };
    Asked {
        workers: words.workers,
        watch: progress,
        json: words.json,
        all: words.all,
        quiet: words.quiet,
        terms: Terms {
            folder,
            demands: work.demands,
        },
        subject: progress.subject,
        report: wanted_by(words, about),
    }
}

/// What is asked for beside the answer, if anything is.
fn wanted_by<'a>(words: &Check<'_>, about: About<'a>) -> Option<Wanted<'a>> {
    let wanted = Wanted {
        about,
        report: words.report.is_some(),
        page: words.page.is_some(),
    };
    if wanted.report || wanted.page {
        Some(wanted)
    } else {
        None
    }
}
