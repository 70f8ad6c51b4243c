//! `check` with a page: its first faults are told by their stories and drawn.

use eos_checking::{check_words, end_check};
use eos_disk::{FolderFault, HostDisk};
use eos_drawing::first_pictures;
use eos_ending::{Meter, Progress, Subject, unread_text};
use eos_explaining::first_stories;
use eos_report::{Telling, Told};
use eos_words::Check;
use std::alloc::{AllocError, Global};
use std::sync::Wait;
use std::thread::Threads;

/// Of how many faults of a page the stories are told.
const MOST: usize = 10;

/// Checks the folders of evidence that the words name, with the report and the page of one, and gives the exit status.
#[inline(never)]
pub(crate) fn check(
    rt: &HostRuntime,
    threads: &(impl Threads + Wait + Sync),
    words: &Check<'_>,
) -> u8 {
    match check_words(rt, threads, words) {
        Err(status) => status,
        Ok(checked) => {
            let tellings = match words.folders.as_slice().first() {
                Some(folder) if checked.has_faulty_page() => {
                    tellings_of(rt, threads, words, folder)
                }
                _ => Ok(Vec::new(rt.alloc())),
            };
            end_check(rt, checked, tellings)
        }
    }
}

/// What is told of the first faults of a folder, which is read once more for their stories, and once for their pictures. Where all faults
/// are asked for, these are ten, else one.
fn tellings_of(
    rt: &HostRuntime,
    threads: &(impl Threads + Wait + Sync),
    words: &Check<'_>,
    folder: &str,
) -> Result<Vec<Telling>, AllocError> {
    let alloc = rt.alloc();
    let most = if words.all { MOST } else { 1 };
    let meter = Meter::start(rt, false, false);
    let progress = Progress::begin(&meter, Subject::Only);
    let disk = HostDisk { rt };
    let read = eos_explaining::Folder {
        disk: &disk,
        path: folder,
        watch: &progress,
    };
    let first = eos_explaining::First {
        workers: words.workers,
        most,
    };
    let stories = texts_of(alloc, first_stories(alloc, threads, read, &first))?;
    let seen = eos_drawing::Folder {
        disk: &disk,
        path: folder,
        watch: &progress,
    };
    let first = eos_drawing::First {
        workers: words.workers,
        most,
    };
    let pictures = texts_of(alloc, first_pictures(alloc, threads, seen, &first))?;
    paired(alloc, stories, pictures)
}

/// Texts, and what stands where there is none.
#[derive(Drop)]
struct Texts {
    texts: Vec<String>,
    why: String,
}

/// These texts; or why the folder isn't read.
fn texts_of(alloc: Global, told: Result<Vec<String>, FolderFault>) -> Result<Texts, AllocError> {
    match told {
        Ok(texts) => {
            let count = texts.len();
            Ok(Texts {
                texts,
                why: format!(in alloc; "the folder changed, and has {count} of these faults now")?,
            })
        }
        Err(fault) => Ok(Texts {
            texts: Vec::new(alloc),
            why: unread_text(alloc, &fault)?,
        }),
    }
}

/// So many, of which the last are told to be lacking.
fn told_by(alloc: Global, of: Texts, count: usize) -> Result<Vec<Told>, AllocError> {
    let Texts { texts, why } = of;
    let mut told = Vec::new(alloc);
    for text in texts {
        told.push(Told::Text(text))?;
    }
    for _ in told.len()..count {
        told.push(Told::Lacking(why.clone()?))?;
    }
    Ok(told)
}

/// The stories and the pictures, by the numbers of their faults; of one fault at least, so that it is said where there are none.
fn paired(alloc: Global, stories: Texts, pictures: Texts) -> Result<Vec<Telling>, AllocError> {
    let count = stories.texts.len().max(pictures.texts.len()).max(1);
    let stories = told_by(alloc, stories, count)?;
    let pictures = told_by(alloc, pictures, count)?;
    let mut tellings = Vec::new(alloc);
    for (story, picture) in stories.into_iter().zip(pictures) {
        let number = tellings.len() as u64 + 1;
        tellings.push(Telling {
            number,
            story,
            picture,
        })?;
    }
    Ok(tellings)
}
