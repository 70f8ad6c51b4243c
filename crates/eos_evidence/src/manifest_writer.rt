//! Writing the manifest of a spec, as a text that reads back as the same spec.

ghost use Rattle.std.specs.Prelude.{◌≡◌, ◌≤◌, ◌++◌, ◌∷◌, true, codes, Ok, Some, IfOk, OnOk, FitsSigned, string_bytes};
ghost use Rattle.std.specs.Int.{w32, w64};
ghost use Rattle.serde_json.specs.Find.{of_integer};
ghost use Rattle.std.specs.Fmt.{signed_decimal};
ghost use Rattle.std.specs.List.{list_all};
ghost use Rattle.std.specs.List.Sorted.{IsStrictlySortedBy};
ghost use Rattle.serde_json.specs.Data.{Members, array, string, number, depth, put as with_member};
ghost use Rattle.serde_json.specs.Read.{max_depth};
ghost use Rattle.serde_json.specs.View.{view, items_view, members_view};
ghost use Rattle.eos_evidence.specs.Topics.{is_topic};
ghost use Rattle.eos_evidence.specs.Ends.{end_cmp, is_legal_end};
ghost use Rattle.eos_evidence.specs.Manifest.{manifest_of, version_in, spec_said_by, version_said_by, version_for};
ghost use Rattle.eos_evidence.specs.steps.WrittenEnds.{HoldsEnds, HasEnds, only_ends};
ghost use Rattle.eos_evidence.specs.steps.WrittenApps.{are_topics, items_of_texts, with_app, written_one, written_two, written_apps, written_app};

use crate::application::App;
use crate::ends::End;
use crate::spec::Spec;
use bytes::Bytes;
use serde_json::{Map, Value};
use std::alloc::{AllocError, Global};

/// The manifest of a spec: `parse_spec` reads the same spec from it. It is of version 1 where there is
/// exactly one application, else of version 2.
///
/// # Errors
/// A growth of memory was refused.
pub fn spec_text(alloc: Global, spec: &Spec) -> Result<Vec<u8>, AllocError>
    ensures reads_back { IfOk result (λ text. spec_said_by text.items ≡ Ok spec.now) }
    ensures version { IfOk result (λ text. version_said_by text.items ≡ Some (version_for spec.now.apps)) }
{
    let value = value_of_spec(alloc, spec)?;
    let text = value.to_string(alloc)?;
    Ok(text.into_bytes())
}

fn value_of_spec(alloc: Global, spec: &Spec) -> Result<Value, AllocError>
    ensures says { IfOk result (λ v. manifest_of (view v) ≡ Ok spec.now) }
    ensures version { IfOk result (λ v. version_in (view v) ≡ Some (version_for spec.now.apps)) }
    ensures shallow { IfOk result (λ v. depth (view v) ≤ max_depth) }
{
    let members = members_with_ends(alloc, spec.ends().as_slice())?;
    let apps = spec.apps().as_slice();
    if apps.len() == 1 {
        value_of_only_app(alloc, &apps[0], members)
    } else {
        value_of_apps(alloc, apps, members)
    }
}

/// The member that both versions have.
fn members_with_ends(alloc: Global, ends: &[End]) -> Result<Map<String, Value>, AllocError>
    requires legal { list_all is_legal_end ends.now ≡ true }
    requires ascending { IsStrictlySortedBy end_cmp ends.now }
    ensures { IfOk result (λ members. HasEnds (members_view members.entries) ends.now) }
{
    let ends = members_of_ends(alloc, ends)?;
    let mut members = Map::new(alloc);
    put(alloc, &mut members, "ends", Value::Object(ends))?;
    Ok(members)
}

/// A manifest of version 1: the application's own members and the version, beside the ends.
fn value_of_only_app(
    alloc: Global,
    app: &App,
    mut members: Map<String, Value>,
) -> Result<Value, AllocError>
    requires { are_topics app.now ≡ true }
    ensures { (ends : Members) → members_view members.entries ≡ only_ends ends → IfOk result (λ v. view v ≡ written_one app.now ends) }
{
    put_app(alloc, &mut members, app)?;
    put(alloc, &mut members, "version", Value::from(1))?;
    Ok(Value::Object(members))
}

/// A manifest of version 2.
fn value_of_apps(
    alloc: Global,
    apps: &[App],
    mut members: Map<String, Value>,
) -> Result<Value, AllocError>
    requires { list_all are_topics apps.now ≡ true }
    ensures { (ends : Members) → members_view members.entries ≡ only_ends ends → IfOk result (λ v. view v ≡ written_two apps.now ends) }
{
    put_apps(alloc, &mut members, apps)?;
    put(alloc, &mut members, "version", Value::from(2))?;
    Ok(Value::Object(members))
}

/// Puts in the list of the applications.
fn put_apps(alloc: Global, members: &mut Map<String, Value>, apps: &[App]) -> Result<(), AllocError>
    requires { list_all are_topics apps.now ≡ true }
    ensures { OnOk result (members_view members.new.entries ≡ with_member (codes "apps") (array (written_apps apps.now)) (members_view members.old.entries)) }
{
    let apps = items_of_apps(alloc, apps)?;
    put(alloc, members, "apps", Value::Array(apps))
}

fn items_of_apps(alloc: Global, apps: &[App]) -> Result<Vec<Value>, AllocError>
    requires { list_all are_topics apps.now ≡ true }
    ensures { IfOk result (λ items. items_view items.items ≡ written_apps apps.now) }
{
    let mut items = Vec::new(alloc);
    for app in apps {
        items.push(value_of_app(alloc, app)?)?;
    }
    Ok(items)
}

/// An application, as a manifest of version 2 lists it.
fn value_of_app(alloc: Global, app: &App) -> Result<Value, AllocError>
    requires { are_topics app.now ≡ true }
    ensures { IfOk result (λ v. view v ≡ written_app app.now) }
{
    let mut members = Map::new(alloc);
    put_app(alloc, &mut members, app)?;
    Ok(Value::Object(members))
}

/// Puts in an application's own members.
fn put_app(alloc: Global, members: &mut Map<String, Value>, app: &App) -> Result<(), AllocError>
    requires { are_topics app.now ≡ true }
    ensures { OnOk result (members_view members.new.entries ≡ with_app app.now (members_view members.old.entries)) }
{
    let group = String::from_str(alloc, app.group.as_str())?;
    put(alloc, members, "group", Value::String(group))?;
    let sources = texts_of_topics(alloc, app.sources.as_slice())?;
    put(alloc, members, "sources", Value::Array(sources))?;
    let outputs = texts_of_topics(alloc, app.outputs.as_slice())?;
    put(alloc, members, "outputs", Value::Array(outputs))
}

/// Puts a member in, or in the place of one of its name.
fn put(
    alloc: Global,
    members: &mut Map<String, Value>,
    name: &str,
    value: Value,
) -> Result<(), AllocError>
    ensures { OnOk result (members_view members.new.entries ≡ with_member name.now (view value) (members_view members.old.entries)) }
{
    let name = String::from_str(alloc, name)?;
    members.insert(name, value)?;
    Ok(())
}

fn texts_of_topics(alloc: Global, topics: &[Bytes]) -> Result<Vec<Value>, AllocError>
    requires { list_all is_topic topics.now ≡ true }
    ensures { IfOk result (λ texts. items_view texts.items ≡ items_of_texts topics.now) }
{
    let mut texts = Vec::new(alloc);
    for topic in topics {
        texts.push(value_of_topic(alloc, topic)?)?;
    }
    Ok(texts)
}

fn value_of_topic(alloc: Global, topic: &Bytes) -> Result<Value, AllocError>
    requires { is_topic topic.now ≡ true }
    ensures { IfOk result (λ v. view v ≡ string topic.now) }
{
    Ok(Value::String(text_of_topic(alloc, topic)?))
}

/// A topic's name is ASCII, so nothing of it is lost.
fn text_of_topic(alloc: Global, topic: &Bytes) -> Result<String, AllocError>
    requires { is_topic topic.now ≡ true }
    ensures { IfOk result (λ text. string_bytes text ≡ topic.now) }
{
    String::from_utf8_lossy(alloc, topic.as_slice())
}

fn members_of_ends(alloc: Global, ends: &[End]) -> Result<Map<String, Value>, AllocError>
    requires legal { list_all is_legal_end ends.now ≡ true }
    requires ascending { IsStrictlySortedBy end_cmp ends.now }
    ensures { IfOk result (λ members. HoldsEnds (members_view members.entries) ends.now) }
{
    let mut members = Map::new(alloc);
    for end in ends {
        let name = partition_text(alloc, end)?;
        members.insert(name, value_of_end(end))?;
    }
    Ok(members)
}

fn value_of_end(end: &End) -> Value
    ensures value { view result ≡ number (of_integer end.now.end) }
    ensures fits { FitsSigned w64 end.now.end }
{
    let offset = end.end;
    Value::from(offset)
}

fn partition_text(alloc: Global, end: &End) -> Result<String, AllocError>
    requires { is_legal_end end.now ≡ true }
    ensures fits { OnOk result (FitsSigned w32 end.now.partition) }
    ensures text { IfOk result (λ text. string_bytes text ≡ end.now.topic ++ 45 ∷ signed_decimal end.now.partition) }
{
    let topic = text_of_topic(alloc, &end.topic)?;
    let partition = end.partition;
    format!(in alloc; "{topic}-{partition}")
}
