//! The words of a refusal: an element of the manifest, what stands there and what is wanted.

use crate::element::{Element, Owner};
use crate::position::{name_at, value_at};
use eos_text::{push_text, push_value};
use serde_json::Value;
use std::alloc::{AllocError, Global};
use std::fmt::Display;

/// Words, of which those are missing for which memory was refused.
#[derive(Drop)]
pub(crate) struct Words<'a> {
    alloc: Global,
    /// What they are about.
    manifest: &'a [u8],
    text: String,
    is_whole: bool,
    /// The byte that they are about.
    at: usize,
}

impl<'a> Words<'a> {
    pub(crate) fn new(alloc: Global, manifest: &'a [u8]) -> Words<'a> {
        Words {
            alloc,
            manifest,
            text: String::new(alloc),
            is_whole: true,
            at: 0,
        }
    }

    /// The text of them with the byte that they are about, where none is missing.
    pub(crate) fn into_text(self) -> Option<(String, usize)> {
        if self.is_whole {
            Some((self.text, self.at))
        } else {
            None
        }
    }

    /// They are about this byte.
    pub(crate) fn point_at_byte(&mut self, at: usize) {
        self.at = at;
    }

    /// They are about what stands at an element.
    pub(crate) fn point_at(&mut self, place: Element<'_>) {
        let found = value_at(self.alloc, self.manifest, place);
        self.point_at_found(found);
    }

    /// They are about the name of an end.
    pub(crate) fn point_at_name(&mut self, name: &str) {
        let found = name_at(self.alloc, self.manifest, name);
        self.point_at_found(found);
    }

    /// What is looked for is there: it isn't found where memory was refused.
    fn point_at_found(&mut self, found: Option<usize>) {
        match found {
            Some(at) => self.at = at,
            None => self.is_whole = false,
        }
    }

    pub(crate) fn add(&mut self, text: &str) {
        let added = push_text(&mut self.text, text);
        self.note(added);
    }

    /// Adds a label and a value.
    pub(crate) fn add_value<T: Display>(&mut self, label: &str, value: &T) {
        let added = push_value(&mut self.text, label, value);
        self.note(added);
    }

    fn note(&mut self, added: Result<(), AllocError>) {
        if added.is_err() {
            self.is_whole = false;
        }
    }

    /// Adds what stands at an element, and what is wanted there.
    pub(crate) fn add_another(&mut self, place: Element<'_>, value: &Value, wanted: &str) {
        self.point_at(place);
        self.add_element(place, " is ");
        self.add(type_of(value));
        self.add("; ");
        self.add(wanted);
        self.add(" is wanted");
    }

    /// Adds a name that stands there, and what is said of it.
    pub(crate) fn add_named(&mut self, place: Element<'_>, name: &str, more: &str) {
        self.point_at(place);
        self.add_element(place, " is ");
        self.add_quoted("", name);
        self.add(more);
    }

    /// Adds a name that stands there, and what is wanted in its place.
    pub(crate) fn add_unfit(&mut self, place: Element<'_>, name: &str, wanted: &str) {
        self.add_named(place, name, "; ");
        self.add(wanted);
        self.add(" is wanted");
    }

    /// Adds what two applications have, the second of them at this index.
    pub(crate) fn add_shared(&mut self, place: Element<'_>, what: &str, name: &str) {
        self.point_at(place);
        self.add("two applications have ");
        self.add_quoted(what, name);
    }

    /// Adds a whole number at which no partition can end.
    pub(crate) fn add_no_end(&mut self, place: Element<'_>, value: &Value) {
        self.point_at(place);
        self.add_element(place, " is ");
        self.add_value("", value);
        self.add("; 0 to 9223372036854775807 is wanted");
    }

    /// Adds that a member of the manifest is absent, or of an application.
    pub(crate) fn add_absent(&mut self, owner: Owner, name: &str) {
        self.point_at(Element::Whole(owner));
        self.add_element(Element::Member(owner, name), " is absent");
    }

    /// Adds an end whose name is refused, and what is said of it.
    pub(crate) fn add_unnamed(&mut self, name: &str, more: &str) {
        self.point_at_name(name);
        self.add_element(Element::End(name), more);
    }

    /// Adds how many a member of the manifest has of something, and how many may be.
    pub(crate) fn add_count(&mut self, name: &str, count: usize, what: &str, most: usize) {
        self.point_at(Element::Member(Owner::Manifest, name));
        self.add(name);
        self.add_value(" has ", &count);
        self.add(what);
        self.add_value("; at most ", &most);
        self.add(" are allowed");
    }

    /// Adds an element and what follows.
    fn add_element(&mut self, place: Element<'_>, more: &str) {
        match place {
            Element::Whole(Owner::Manifest) => self.add("the manifest"),
            Element::Whole(Owner::App(at)) => self.add_index("apps", at),
            Element::Member(owner, name) => self.add_member(owner, name),
            Element::Item(owner, name, at) => {
                self.add_member(owner, "");
                self.add_index(name, at);
            }
            Element::End(name) => {
                self.add_quoted("ends[", name);
                self.add("]");
            }
        }
        self.add(more);
    }

    fn add_member(&mut self, owner: Owner, name: &str) {
        if let Owner::App(at) = owner {
            self.add_index("apps", at);
            self.add(".");
        }
        self.add(name);
    }

    fn add_index(&mut self, name: &str, at: usize) {
        self.add(name);
        self.add_value("[", &at);
        self.add("]");
    }

    /// Adds a label and a text as JSON writes it, on one line whatever stands in it.
    fn add_quoted(&mut self, label: &str, text: &str) {
        self.add(label);
        self.add("\"");
        for c in text.chars() {
            let added = push_char(&mut self.text, c);
            self.note(added);
        }
        self.add("\"");
    }
}

fn push_char(out: &mut String, c: char) -> Result<(), AllocError> {
    if c.is_control() {
        return write!(out, "\\u{:04x}", c as u32);
    }
    if c == '"' || c == '\\' {
        out.push('\\')?;
    }
    out.push(c)
}

/// What a JSON value is.
fn type_of<'a>(value: &Value) -> &'a str {
    match value {
        Value::Null => "null",
        Value::Bool(_) => "a boolean",
        Value::Number(number) => {
            if number.is_f64() {
                "a number that isn't an integer of 64 bits"
            } else {
                "an integer"
            }
        }
        Value::String(_) => "a text",
        Value::Array(_) => "an array",
        Value::Object(_) => "an object",
    }
}
