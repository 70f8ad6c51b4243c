//! Reading the manifest: a JSON text that names the applications and the end of each partition.
//!
//! | Member | Version 1 | Version 2 |
//! |---|---|---|
//! | `version` | the number 1 | the number 2 |
//! | `group` | the consumer group of the one application, any text | |
//! | `sources` | an array of the topics that it reads | |
//! | `outputs` | an array of the topics that it writes | |
//! | `apps` | | an array: for each application an object with its `group`, `sources` and `outputs` |
//! | `ends` | an object: for each partition's name, as `in-0`, the offset after its last record | the same |
//!
//! Other members are ignored.

ghost use Rattle.std.specs.Prelude.{◌≡◌, ◌≢◌, true, Ok, Err, Some, IfOk, IfErr, option_map, option_and_then, string_bytes};
ghost use Rattle.std.specs.Str.{is_utf8};
ghost use Rattle.serde_json.specs.Read.{read as read_text};
ghost use Rattle.serde_json.specs.View.{view, items_view, members_view};
ghost use Rattle.serde_json.specs.Find.{as_number, as_integer};
ghost use Rattle.eos_evidence.specs.SpecFields.{Answers};
ghost use Rattle.eos_evidence.specs.Manifest.{texts_of, app_in, apps_of, apps_in, end_of, ends_of, group_in, topics_in, ends_in, version_in, version_test, manifest_of, spec_said_by};
ghost use Rattle.eos_evidence.specs.declared.fault.SpecFault.TheVariants as faults;
ghost use Rattle.eos_evidence.specs.declared.manifest_reader.Version.TheVariants.{Two};

use crate::application::{App, GroupId};
use crate::ends::End;
use crate::fault::SpecFault;
use crate::partition_name::read_partition_name;
use crate::spec::Spec;
use bytes::Bytes;
use eos_base::Listed;
use serde_json::{Map, Value};
use std::alloc::{AllocError, Global};
use std::slice;

/// The versions of a manifest.
#[derive(Clone, Copy)]
enum Version {
    One,
    Two,
}

/// Reads a manifest, of version 1 or 2.
///
/// # Errors
/// `Json` where the bytes are no JSON text; `Field` where it is no object or the version is no integer;
/// `Version` where it is neither 1 nor 2; then `Field` and `Limit` as `Spec::new` says, and `Field` where
/// a part is absent or of another type; `OutOfMemory` where a growth was refused.
pub fn parse_spec(alloc: Global, bytes: &[u8]) -> Result<Spec, SpecFault>
    ensures { Answers result (spec_said_by bytes.now) }
{
    let value = parse_value(alloc, bytes)?;
    read_spec(alloc, &value)
}

/// The JSON value of a text.
fn parse_value(alloc: Global, bytes: &[u8]) -> Result<Value, SpecFault>
    ensures ok { IfOk result (λ v. (is_utf8 bytes.now ≡ true) × (read_text bytes.now ≡ Some (view v))) }
    ensures err { IfErr result (λ e. e ≢ faults.OutOfMemory → (e ≡ faults.Json) × (spec_said_by bytes.now ≡ Err faults.Json)) }
{
    match Value::from_slice(alloc, bytes) {
        Ok(value) => Ok(value),
        Err(error) => {
            if error.is_memory() {
                Err(SpecFault::OutOfMemory)
            } else {
                Err(SpecFault::Json)
            }
        }
    }
}

/// What a JSON value says.
fn read_spec(alloc: Global, value: &Value) -> Result<Spec, SpecFault>
    ensures { Answers result (manifest_of (view value.now)) }
{
    let version = read_version(value)?;
    let Some(apps) = read_apps(alloc, value, version)? else {
        return Err(SpecFault::Field);
    };
    let Some(ends) = read_ends(alloc, value)? else {
        return Err(SpecFault::Field);
    };
    Spec::new(alloc, Listed::new(apps), Listed::new(ends))
}

/// Looks at the version alone.
fn read_version(value: &Value) -> Result<Version, SpecFault>
    ensures { result ≡ version_test (version_in (view value.now)) }
{
    match value.get("version") {
        Some(version) => version_of_number(version),
        None => Err(SpecFault::Field),
    }
}

fn version_of_number(version: &Value) -> Result<Version, SpecFault>
    ensures { result ≡ version_test (option_and_then as_integer (as_number (view version.now))) }
{
    match version.as_i64() {
        Some(1) => Ok(Version::One),
        Some(2) => Ok(Version::Two),
        Some(_) => Err(SpecFault::Version),
        None if version.is_u64() => Err(SpecFault::Version),
        None => Err(SpecFault::Field),
    }
}

/// The applications of a manifest, which in version 1 is the one itself.
fn read_apps(alloc: Global, value: &Value, version: Version) -> Result<Option<Vec<App>>, AllocError>
    ensures { IfOk result (λ apps. option_map (λ v. v.items) apps ≡ apps_in version (view value.now)) }
{
    match version {
        Version::One => read_app_items(alloc, slice::from_ref(value)),
        Version::Two => read_app_list(alloc, value),
    }
}

/// The applications that a manifest of version 2 lists.
fn read_app_list(alloc: Global, value: &Value) -> Result<Option<Vec<App>>, AllocError>
    ensures { IfOk result (λ apps. option_map (λ v. v.items) apps ≡ apps_in Two (view value.now)) }
{
    match value.get("apps").and_then(Value::as_array) {
        Some(items) => read_app_items(alloc, items.as_slice()),
        None => Ok(None),
    }
}

/// The applications of an array, or nothing where an item is none.
fn read_app_items(alloc: Global, items: &[Value]) -> Result<Option<Vec<App>>, AllocError>
    ensures { IfOk result (λ apps. option_map (λ v. v.items) apps ≡ apps_of (items_view items.now)) }
{
    let mut apps = Vec::new(alloc);
    for item in items {
        let Some(app) = read_app(alloc, item)? else {
            return Ok(None);
        };
        apps.push(app)?;
    }
    Ok(Some(apps))
}

/// The application that an object says.
fn read_app(alloc: Global, value: &Value) -> Result<Option<App>, AllocError>
    ensures { IfOk result (λ app. app ≡ app_in (view value.now)) }
{
    let Some(group) = read_group(alloc, value)? else {
        return Ok(None);
    };
    let Some(sources) = read_topics(alloc, value, "sources")? else {
        return Ok(None);
    };
    let Some(outputs) = read_topics(alloc, value, "outputs")? else {
        return Ok(None);
    };
    Ok(Some(App {
        group: GroupId::new(group),
        sources: Listed::new(sources),
        outputs: Listed::new(outputs),
    }))
}

fn read_group(alloc: Global, value: &Value) -> Result<Option<String>, AllocError>
    ensures { IfOk result (λ group. option_map string_bytes group ≡ group_in (view value.now)) }
{
    match value.get("group").and_then(Value::as_str) {
        Some(group) => Ok(Some(String::from_str(alloc, group)?)),
        None => Ok(None),
    }
}

fn read_topics(alloc: Global, value: &Value, name: &str) -> Result<Option<Vec<Bytes>>, AllocError>
    ensures { IfOk result (λ topics. option_map (λ v. v.items) topics ≡ topics_in name.now (view value.now)) }
{
    match value.get(name).and_then(Value::as_array) {
        Some(items) => read_texts(alloc, items.as_slice()),
        None => Ok(None),
    }
}

/// The texts of an array, or nothing where an item is no text.
fn read_texts(alloc: Global, items: &[Value]) -> Result<Option<Vec<Bytes>>, AllocError>
    ensures { IfOk result (λ texts. option_map (λ v. v.items) texts ≡ texts_of (items_view items.now)) }
{
    let mut texts = Vec::new(alloc);
    for item in items {
        let Some(text) = item.as_str() else {
            return Ok(None);
        };
        texts.push(Bytes::copy_from_slice(alloc, text.as_bytes())?)?;
    }
    Ok(Some(texts))
}

fn read_ends(alloc: Global, value: &Value) -> Result<Option<Vec<End>>, AllocError>
    ensures { IfOk result (λ ends. option_map (λ v. v.items) ends ≡ ends_in (view value.now)) }
{
    match value.get("ends").and_then(Value::as_object) {
        Some(members) => read_members(alloc, members),
        None => Ok(None),
    }
}

/// The ends of an object, or nothing where a member is none.
fn read_members(alloc: Global, members: &Map<String, Value>) -> Result<Option<Vec<End>>, AllocError>
    ensures { IfOk result (λ ends. option_map (λ v. v.items) ends ≡ ends_of (members_view members.now.entries)) }
{
    let mut ends = Vec::new(alloc);
    for (name, value) in members.iter() {
        let Some(end) = read_end(alloc, name.as_str(), value)? else {
            return Ok(None);
        };
        ends.push(end)?;
    }
    Ok(Some(ends))
}

/// The end that a member gives.
fn read_end(alloc: Global, name: &str, value: &Value) -> Result<Option<End>, AllocError>
    ensures { IfOk result (λ end. end ≡ end_of name.now (view value.now)) }
{
    let Some((topic, partition)) = read_partition_name(name.as_bytes()) else {
        return Ok(None);
    };
    let Some(end) = value.as_i64() else {
        return Ok(None);
    };
    let topic = Bytes::copy_from_slice(alloc, topic)?;
    Ok(Some(End {
        topic,
        partition,
        end,
    }))
}
