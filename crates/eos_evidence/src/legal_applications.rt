//! Which applications may stand together. What stands twice is found by a set of what was seen; where
//! memory is refused to the set, each name is looked for among those after it, which is slower and takes
//! none. So no test is left undecided.

ghost use Rattle.std.specs.Prelude.{◌≡◌, ◌++◌, ◌&&◌, IfOk, bytes_eq};
ghost use Rattle.std.specs.List.{list_all, list_any};
ghost use Rattle.eos_evidence.specs.SpecFields.{is_own_topic, is_legal_app, are_legal_apps, outputs_of, groups_of};
ghost use Rattle.eos_evidence.specs.Topics.{is_among, are_unequal};

use crate::application::{App, GroupId, outputs_of};
use crate::topics::{is_internal_topic, is_one_of, is_topic_name, push_topics};
use bytes::Bytes;
use std::alloc::{AllocError, Global};
use std::collections::BTreeSet;
use std::slice;

/// Whether each application is legal and no two have one group or one output topic.
pub(crate) fn are_apps_legal(alloc: Global, apps: &[App]) -> bool
    ensures { result ≡ are_legal_apps apps.now }
{
    is_each_legal(alloc, apps)
        && are_groups_unequal(alloc, apps)
        && are_outputs_unequal(alloc, apps)
}

fn is_each_legal(alloc: Global, apps: &[App]) -> bool
    ensures { result ≡ list_all is_legal_app apps.now }
{
    apps.iter().all(|app| is_app_legal(alloc, app))
}

fn is_app_legal(alloc: Global, app: &App) -> bool
    ensures { result ≡ is_legal_app app.now }
{
    are_own_topics(app.sources.as_slice())
        && are_own_topics(app.outputs.as_slice())
        && are_topics_unequal(alloc, app)
}

/// Whether each of these is a topic's name and none is of Kafka's own topics.
fn are_own_topics(topics: &[Bytes]) -> bool
    ensures { result ≡ list_all is_own_topic topics.now }
{
    topics.iter().all(|topic| is_topic_name(topic.as_slice())
        && !is_internal_topic(topic.as_slice()))
}

/// Whether no topic stands twice in the application's two lists together.
fn are_topics_unequal(alloc: Global, app: &App) -> bool
    ensures { result ≡ are_unequal (app.now.sources ++ app.now.outputs) }
{
    match are_topics_unequal_by_set(alloc, app) {
        Ok(unequal) => unequal,
        Err(_) => are_topics_unequal_in_turn(app),
    }
}

fn are_topics_unequal_by_set(alloc: Global, app: &App) -> Result<bool, AllocError>
    ensures { IfOk result (λ unequal. unequal ≡ are_unequal (app.now.sources ++ app.now.outputs)) }
{
    let mut topics = app.sources.as_slice().to_vec(alloc)?;
    push_topics(&mut topics, app.outputs.as_slice())?;
    are_names_unequal(alloc, topics)
}

fn are_topics_unequal_in_turn(app: &App) -> bool
    ensures { result ≡ are_unequal (app.now.sources ++ app.now.outputs) }
{
    are_new_outputs(app.sources.as_slice(), slice::from_ref(app))
        && are_new_outputs(app.outputs.as_slice(), &[])
}

/// Whether no two applications have one group.
fn are_groups_unequal(alloc: Global, apps: &[App]) -> bool
    ensures { result ≡ are_unequal (groups_of apps.now) }
{
    match are_groups_unequal_by_set(alloc, apps) {
        Ok(unequal) => unequal,
        Err(_) => are_groups_unequal_in_turn(apps),
    }
}

fn are_groups_unequal_by_set(alloc: Global, apps: &[App]) -> Result<bool, AllocError>
    ensures { IfOk result (λ unequal. unequal ≡ are_unequal (groups_of apps.now)) }
{
    let mut groups = Vec::new(alloc);
    for app in apps {
        groups.push(Bytes::copy_from_slice(alloc, app.group.as_bytes())?)?;
    }
    are_names_unequal(alloc, groups)
}

fn are_groups_unequal_in_turn(apps: &[App]) -> bool
    ensures { result ≡ are_unequal (groups_of apps.now) }
{
    for i in 0..apps.len() {
        if has_group(&apps[i + 1..], &apps[i].group) {
            return false;
        }
    }
    true
}

/// Whether one of the applications has this group.
fn has_group(apps: &[App], group: &GroupId) -> bool
    ensures { result ≡ list_any (λ app. bytes_eq group.now app.group) apps.now }
{
    apps.iter().any(|app| *group == app.group)
}

/// Whether no topic stands twice among the outputs of all applications.
fn are_outputs_unequal(alloc: Global, apps: &[App]) -> bool
    ensures { result ≡ are_unequal (outputs_of apps.now) }
{
    match are_outputs_unequal_by_set(alloc, apps) {
        Ok(unequal) => unequal,
        Err(_) => are_outputs_unequal_in_turn(apps),
    }
}

fn are_outputs_unequal_by_set(alloc: Global, apps: &[App]) -> Result<bool, AllocError>
    ensures { IfOk result (λ unequal. unequal ≡ are_unequal (outputs_of apps.now)) }
{
    are_names_unequal(alloc, outputs_of(alloc, apps)?)
}

fn are_outputs_unequal_in_turn(apps: &[App]) -> bool
    ensures { result ≡ are_unequal (outputs_of apps.now) }
{
    for i in 0..apps.len() {
        if !are_new_outputs(apps[i].outputs.as_slice(), &apps[i + 1..]) {
            return false;
        }
    }
    true
}

/// Whether no topic stands twice among these, or is an output of one of the applications.
fn are_new_outputs(topics: &[Bytes], apps: &[App]) -> bool
    ensures { (result && are_unequal (outputs_of apps.now)) ≡ are_unequal (topics.now ++ outputs_of apps.now) }
{
    for i in 0..topics.len() {
        let topic = &topics[i];
        if is_one_of(topic, &topics[i + 1..]) || is_output(topic, apps) {
            return false;
        }
    }
    true
}

/// Whether the topic is an output of one of the applications.
fn is_output(topic: &Bytes, apps: &[App]) -> bool
    ensures { result ≡ list_any (λ app. is_among topic.now app.outputs) apps.now }
{
    apps.iter()
        .any(|app| is_one_of(topic, app.outputs.as_slice()))
}

/// Whether no name stands twice.
fn are_names_unequal(alloc: Global, mut names: Vec<Bytes>) -> Result<bool, AllocError>
    ensures { IfOk result (λ unequal. unequal ≡ are_unequal names.items) }
{
    let mut seen = BTreeSet::new(alloc);
    while let Some(name) = names.pop() {
        if !seen.insert(name)? {
            return Ok(false);
        }
    }
    Ok(true)
}
