//! The applications of a manifest, where they stand in its JSON value.

use crate::element::{Element, Owner};
use crate::types::array_at;
use crate::words::Words;
use eos_evidence::SpecFault;
use serde_json::Value;
use std::slice;

/// The applications of a manifest, in order.
#[derive(Clone, Copy)]
pub(crate) struct AppList<'a> {
    pub(crate) values: &'a [Value],
    /// The manifest lists them, in version 2; in version 1 it is the one itself.
    are_listed: bool,
}

impl<'a> AppList<'a> {
    /// Them as a manifest has them: by its version, which is looked at here.
    pub(crate) fn of(words: &mut Words<'_>, manifest: &'a Value) -> Result<AppList<'a>, SpecFault> {
        let are_listed = is_version_two(words, manifest)?;
        let values = if are_listed {
            array_at(words, manifest, Owner::Manifest, "apps")?
        } else {
            slice::from_ref(manifest)
        };
        Ok(AppList { values, are_listed })
    }

    /// Whose members those of the application at this index are.
    pub(crate) fn owner(self, at: usize) -> Owner {
        if self.are_listed {
            Owner::App(at)
        } else {
            Owner::Manifest
        }
    }
}

/// Whether a manifest is of version 2, where it isn't of version 1.
fn is_version_two(words: &mut Words<'_>, manifest: &Value) -> Result<bool, SpecFault> {
    if !manifest.is_object() {
        let place = Element::Whole(Owner::Manifest);
        words.add_another(place, manifest, "an object");
        return Err(SpecFault::Field);
    }
    let place = Element::Member(Owner::Manifest, "version");
    let Some(version) = manifest.get("version") else {
        words.add_absent(Owner::Manifest, "version");
        return Err(SpecFault::Field);
    };
    match version.as_i64() {
        Some(1) => Ok(false),
        Some(2) => Ok(true),
        None if !version.is_u64() => {
            words.add_another(place, version, "an integer");
            Err(SpecFault::Field)
        }
        _ => {
            words.point_at(place);
            words.add_value("version is ", version);
            words.add("; 1 or 2 is wanted");
            Err(SpecFault::Version)
        }
    }
}

/// The items of a member; none where it is no array.
pub(crate) fn items_of<'a>(value: &'a Value, name: &str) -> &'a [Value] {
    match value.get(name).and_then(Value::as_array) {
        Some(items) => items.as_slice(),
        None => &[],
    }
}
