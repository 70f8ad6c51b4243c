//! Which names a manifest may have. What a topic may be called is asked of the manifest's own tests, each name put to them alone.

use bytes::Bytes;
use eos_base::Listed;
use eos_evidence::{App, End, GroupId, Spec};
use std::alloc::{AllocError, Global};

/// Whether partitions of a topic with this name may stand in a manifest.
pub(crate) fn is_topic(alloc: Global, name: &str) -> Result<bool, AllocError> {
    let topic = Bytes::copy_from_slice(alloc, name.as_bytes())?;
    let mut ends = Vec::new(alloc);
    ends.push(End {
        topic,
        partition: 0,
        end: 0,
    })?;
    let spec = Spec::new(alloc, Listed::new(Vec::new(alloc)), Listed::new(ends));
    Ok(spec.is_ok())
}

/// Whether an application may name this topic.
pub(crate) fn is_own_topic(alloc: Global, name: &str) -> Result<bool, AllocError> {
    let mut sources = Vec::new(alloc);
    sources.push(Bytes::copy_from_slice(alloc, name.as_bytes())?)?;
    let mut apps = Vec::new(alloc);
    apps.push(App {
        group: GroupId::new(String::new(alloc)),
        sources: Listed::new(sources),
        outputs: Listed::new(Vec::new(alloc)),
    })?;
    let spec = Spec::new(alloc, Listed::new(apps), Listed::new(Vec::new(alloc)));
    Ok(spec.is_ok())
}

/// The topic that a partition's name says: what stands before the last hyphen, where a number of a partition follows.
pub(crate) fn topic_of(name: &str) -> Option<&str> {
    let (topic, number) = name.rsplit_once('-')?;
    if is_number(number) { Some(topic) } else { None }
}

/// Whether this is a number of 31 bits in digits, without leading zeros.
fn is_number(text: &str) -> bool {
    let digits = text.as_bytes();
    if digits.is_empty() || (digits.len() > 1 && digits[0] == b'0') {
        return false;
    }
    digits.iter().all(|byte| byte.is_ascii_digit()) && text.parse::<i32>().is_ok()
}
