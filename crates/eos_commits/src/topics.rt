//! The topics that applications read.

ghost use Rattle.std.specs.Prelude.{◌≡◌, ◌++◌, IfOk, OnOk};
ghost use Rattle.eos_commits.specs.SourceTopics.{sources_of, AreSourceTopics};

use bytes::Bytes;
use eos_base::distinct_in_order;
use eos_evidence::App;
use std::alloc::{AllocError, Global};

/// Puts equal names at the end, which share their bytes.
fn push_all(topics: &mut Vec<Bytes>, more: &[Bytes]) -> Result<(), AllocError>
    ensures { OnOk result (topics.new.items ≡ topics.old.items ++ more.now) }
{
    for topic in more {
        topics.push(topic.clone()?)?;
    }
    Ok(())
}

/// What each application reads, one after the other.
fn sources_of(alloc: Global, apps: &[App]) -> Result<Vec<Bytes>, AllocError>
    ensures { IfOk result (λ topics. topics.items ≡ sources_of apps.now) }
{
    let mut topics = Vec::new(alloc);
    for app in apps {
        push_all(&mut topics, app.sources.as_slice())?;
    }
    Ok(topics)
}

/// The topics that the applications read, each once, in the order of their bytes: most claims name one of these.
///
/// # Errors
/// Only want of memory.
pub fn source_topics(alloc: Global, apps: &[App]) -> Result<Vec<Bytes>, AllocError>
    ensures { IfOk result (λ topics. AreSourceTopics apps.now topics.items) }
{
    let topics = sources_of(alloc, apps)?;
    Ok(distinct_in_order(topics))
}
