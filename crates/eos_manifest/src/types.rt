//! Whether what stands in a manifest is of the types that are wanted.

use crate::apps::AppList;
use crate::element::{Element, Owner};
use crate::names::topic_of;
use crate::words::Words;
use eos_evidence::SpecFault;
use serde_json::{Map, Value};

/// Looks at the types of the applications, one after the other.
pub(crate) fn look_at_app_types(words: &mut Words<'_>, apps: AppList<'_>) -> Result<(), SpecFault> {
    for (at, app) in apps.values.iter().enumerate() {
        look_at_app(words, app, apps.owner(at))?;
    }
    Ok(())
}

fn look_at_app(words: &mut Words<'_>, app: &Value, owner: Owner) -> Result<(), SpecFault> {
    if !app.is_object() {
        words.add_another(Element::Whole(owner), app, "an object");
        return Err(SpecFault::Field);
    }
    let group = value_at(words, app, owner, "group")?;
    look_at_text(words, group, Element::Member(owner, "group"))?;
    look_at_texts(words, app, owner, "sources")?;
    look_at_texts(words, app, owner, "outputs")
}

fn look_at_texts(
    words: &mut Words<'_>,
    app: &Value,
    owner: Owner,
    name: &str,
) -> Result<(), SpecFault> {
    let items = array_at(words, app, owner, name)?;
    for (at, item) in items.iter().enumerate() {
        look_at_text(words, item, Element::Item(owner, name, at))?;
    }
    Ok(())
}

fn look_at_text(words: &mut Words<'_>, value: &Value, place: Element<'_>) -> Result<(), SpecFault> {
    if value.is_string() {
        Ok(())
    } else {
        words.add_another(place, value, "a text");
        Err(SpecFault::Field)
    }
}

/// The ends, whose names and types are looked at.
pub(crate) fn ends_of<'a>(
    words: &mut Words<'_>,
    manifest: &'a Value,
) -> Result<&'a Map<String, Value>, SpecFault> {
    let value = value_at(words, manifest, Owner::Manifest, "ends")?;
    let Some(ends) = value.as_object() else {
        let place = Element::Member(Owner::Manifest, "ends");
        words.add_another(place, value, "an object");
        return Err(SpecFault::Field);
    };
    for (name, end) in ends.iter() {
        look_at_end(words, name.as_str(), end)?;
    }
    Ok(ends)
}

fn look_at_end(words: &mut Words<'_>, name: &str, end: &Value) -> Result<(), SpecFault> {
    let place = Element::End(name);
    if topic_of(name).is_none() {
        words.add_unnamed(name, " isn't a partition's name");
    } else if end.is_i64() {
        return Ok(());
    } else if end.is_u64() {
        words.add_no_end(place, end);
    } else {
        words.add_another(place, end, "an integer");
    }
    Err(SpecFault::Field)
}

fn value_at<'a>(
    words: &mut Words<'_>,
    value: &'a Value,
    owner: Owner,
    name: &str,
) -> Result<&'a Value, SpecFault> {
    match value.get(name) {
        Some(member) => Ok(member),
        None => {
            words.add_absent(owner, name);
            Err(SpecFault::Field)
        }
    }
}

/// The items of a member that has to be an array.
pub(crate) fn array_at<'a>(
    words: &mut Words<'_>,
    value: &'a Value,
    owner: Owner,
    name: &str,
) -> Result<&'a [Value], SpecFault> {
    let member = value_at(words, value, owner, name)?;
    match member.as_array() {
        Some(items) => Ok(items.as_slice()),
        None => {
            words.add_another(Element::Member(owner, name), member, "an array");
            Err(SpecFault::Field)
        }
    }
}
