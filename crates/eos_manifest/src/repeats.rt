//! What stands twice in a manifest and may not. A set of what was seen finds it, so that a long list takes no long time.

use crate::apps::{AppList, items_of};
use crate::element::{Element, Owner};
use crate::words::Words;
use eos_evidence::SpecFault;
use serde_json::Value;
use std::alloc::{AllocError, Global};
use std::collections::BTreeSet;

/// Looks whether a topic stands twice in an application's two lists together.
pub(crate) fn look_at_repeats(
    alloc: Global,
    words: &mut Words<'_>,
    app: &Value,
    owner: Owner,
) -> Result<(), SpecFault> {
    let mut seen = BTreeSet::new(alloc);
    look_at_list(words, &mut seen, app, owner, "sources")?;
    look_at_list(words, &mut seen, app, owner, "outputs")
}

fn look_at_list<'a>(
    words: &mut Words<'_>,
    seen: &mut BTreeSet<&'a str>,
    app: &'a Value,
    owner: Owner,
    name: &str,
) -> Result<(), SpecFault> {
    match seen_before(seen, app, name)? {
        Some((at, topic)) => {
            let more = " again; an application names a topic once";
            words.add_named(Element::Item(owner, name, at), topic, more);
            Err(SpecFault::Field)
        }
        None => Ok(()),
    }
}

/// Looks whether two applications have one group.
pub(crate) fn look_at_groups(
    alloc: Global,
    words: &mut Words<'_>,
    apps: AppList<'_>,
) -> Result<(), SpecFault> {
    let mut seen = BTreeSet::new(alloc);
    for (nth, app) in apps.values.iter().enumerate() {
        if let Some(group) = app.get("group").and_then(Value::as_str) {
            if !is_new(&mut seen, group)? {
                let place = Element::Member(apps.owner(nth), "group");
                words.add_shared(place, "the group ", group);
                return Err(SpecFault::Field);
            }
        }
    }
    Ok(())
}

/// Looks whether two applications have one output topic.
pub(crate) fn look_at_outputs(
    alloc: Global,
    words: &mut Words<'_>,
    apps: AppList<'_>,
) -> Result<(), SpecFault> {
    let mut seen = BTreeSet::new(alloc);
    for (nth, app) in apps.values.iter().enumerate() {
        if let Some((at, topic)) = seen_before(&mut seen, app, "outputs")? {
            let place = Element::Item(apps.owner(nth), "outputs", at);
            words.add_shared(place, "the output topic ", topic);
            return Err(SpecFault::Field);
        }
    }
    Ok(())
}

/// The first text of a member's items, with its index among them, that was seen before. Those before it are seen now.
fn seen_before<'a>(
    seen: &mut BTreeSet<&'a str>,
    app: &'a Value,
    name: &str,
) -> Result<Option<(usize, &'a str)>, AllocError> {
    for (at, item) in items_of(app, name).iter().enumerate() {
        if let Some(text) = item.as_str() {
            if !is_new(seen, text)? {
                return Ok(Some((at, text)));
            }
        }
    }
    Ok(None)
}

/// Whether this wasn't seen yet; now it is.
fn is_new<'a>(seen: &mut BTreeSet<&'a str>, name: &'a str) -> Result<bool, AllocError> {
    Ok(seen.insert(name)?)
}
