//! The first refusal of a manifest's JSON value: by the version, the types of the applications and of the ends, the applications,
//! the ends, and how many there are of both.

use crate::apps::{AppList, items_of};
use crate::element::{Element, Owner};
use crate::names::{is_own_topic, is_topic, topic_of};
use crate::repeats::{look_at_groups, look_at_outputs, look_at_repeats};
use crate::types::{ends_of, look_at_app_types};
use crate::words::Words;
use eos_evidence::{MAX_APPS, MAX_PARTITIONS, SpecFault};
use serde_json::{Map, Value};
use std::alloc::Global;

/// Finds nothing where the manifest isn't refused. Where it is, the words say which element it is, what stands there and what is wanted.
pub(crate) fn search(
    alloc: Global,
    words: &mut Words<'_>,
    manifest: &Value,
) -> Result<(), SpecFault> {
    let apps = AppList::of(words, manifest)?;
    look_at_app_types(words, apps)?;
    let ends = ends_of(words, manifest)?;
    look_at_apps(alloc, words, apps)?;
    look_at_ends(alloc, words, ends, apps.values.len())
}

fn look_at_apps(alloc: Global, words: &mut Words<'_>, apps: AppList<'_>) -> Result<(), SpecFault> {
    for (at, app) in apps.values.iter().enumerate() {
        let owner = apps.owner(at);
        look_at_topics(alloc, words, app, owner, "sources")?;
        look_at_topics(alloc, words, app, owner, "outputs")?;
        look_at_repeats(alloc, words, app, owner)?;
    }
    look_at_groups(alloc, words, apps)?;
    look_at_outputs(alloc, words, apps)
}

fn look_at_topics(
    alloc: Global,
    words: &mut Words<'_>,
    app: &Value,
    owner: Owner,
    name: &str,
) -> Result<(), SpecFault> {
    for (at, item) in items_of(app, name).iter().enumerate() {
        if let Some(topic) = item.as_str() {
            look_at_topic(alloc, words, topic, Element::Item(owner, name, at))?;
        }
    }
    Ok(())
}

fn look_at_topic(
    alloc: Global,
    words: &mut Words<'_>,
    topic: &str,
    place: Element<'_>,
) -> Result<(), SpecFault> {
    let wanted = if !is_topic(alloc, topic)? {
        "a topic's name"
    } else if !is_own_topic(alloc, topic)? {
        "a topic that isn't Kafka's own"
    } else {
        return Ok(());
    };
    words.add_unfit(place, topic, wanted);
    Err(SpecFault::Field)
}

/// Looks at the ends of a manifest with so many applications, and then at both numbers.
fn look_at_ends(
    alloc: Global,
    words: &mut Words<'_>,
    ends: &Map<String, Value>,
    apps: usize,
) -> Result<(), SpecFault> {
    for (name, end) in ends.iter() {
        look_at_end(alloc, words, name.as_str(), end)?;
    }
    if apps > MAX_APPS {
        words.add_count("apps", apps, " items", MAX_APPS);
        return Err(SpecFault::Limit);
    }
    if ends.len() > MAX_PARTITIONS {
        words.add_count("ends", ends.len(), " members", MAX_PARTITIONS);
        return Err(SpecFault::Limit);
    }
    Ok(())
}

fn look_at_end(
    alloc: Global,
    words: &mut Words<'_>,
    name: &str,
    end: &Value,
) -> Result<(), SpecFault> {
    if let Some(topic) = topic_of(name) {
        if !is_topic(alloc, topic)? {
            words.add_unnamed(
                name,
                " isn't a partition's name, since its topic's isn't one",
            );
            return Err(SpecFault::Field);
        }
    }
    match end.as_i64() {
        Some(offset) if offset < 0 => {
            words.add_no_end(Element::End(name), end);
            Err(SpecFault::Field)
        }
        _ => Ok(()),
    }
}
