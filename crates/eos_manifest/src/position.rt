//! Where an element of a manifest stands in its text. The kit's reader of JSON passes over what stands before it.

use crate::element::{Element, Owner};
use json::{MAX_DEPTH, Reader, Scratch, Token};
use std::alloc::Global;
use std::str;

/// Where a member's name and its value begin.
#[derive(Clone, Copy)]
struct Member {
    name: usize,
    value: usize,
}

/// Where the value of an element begins. It isn't found where it isn't there, or memory is refused.
pub(crate) fn value_at(alloc: Global, manifest: &[u8], place: Element<'_>) -> Option<usize> {
    match place {
        Element::Whole(owner) => owner_at(alloc, manifest, owner),
        Element::Member(owner, name) => member_at(alloc, manifest, owner, name),
        Element::Item(owner, name, nth) => {
            let list = member_at(alloc, manifest, owner, name)?;
            item_in(alloc, manifest, list, nth)
        }
        Element::End(name) => Some(end_at(alloc, manifest, name)?.value),
    }
}

/// Where the name of an end begins.
pub(crate) fn name_at(alloc: Global, manifest: &[u8], name: &str) -> Option<usize> {
    Some(end_at(alloc, manifest, name)?.name)
}

fn owner_at(alloc: Global, manifest: &[u8], owner: Owner) -> Option<usize> {
    match owner {
        Owner::Manifest => first_in(alloc, manifest),
        Owner::App(nth) => {
            let list = member_at(alloc, manifest, Owner::Manifest, "apps")?;
            item_in(alloc, manifest, list, nth)
        }
    }
}

fn member_at(alloc: Global, manifest: &[u8], owner: Owner, name: &str) -> Option<usize> {
    let object = match owner {
        Owner::Manifest => 0,
        Owner::App(nth) => {
            let list = member_in(alloc, manifest, 0, "apps")?;
            item_in(alloc, manifest, list.value, nth)?
        }
    };
    Some(member_in(alloc, manifest, object, name)?.value)
}

fn end_at(alloc: Global, manifest: &[u8], name: &str) -> Option<Member> {
    let ends = member_in(alloc, manifest, 0, "ends")?;
    member_in(alloc, manifest, ends.value, name)
}

// ---- one step each, in the text from a byte on

/// Where the first value begins.
#[inline(never)]
fn first_in(alloc: Global, manifest: &[u8]) -> Option<usize> {
    let text = str::from_utf8(manifest).ok()?;
    let mut scratch = Scratch::new(alloc);
    let reader = Reader::new(text, &mut scratch).ok()?;
    Some(reader.offset())
}

/// The member of this name of the object that begins behind this byte: the last, where several have it, as of the value.
#[inline(never)]
fn member_in(alloc: Global, manifest: &[u8], start: usize, name: &str) -> Option<Member> {
    let text = str::from_utf8(&manifest[start.min(manifest.len())..]).ok()?;
    let mut scratch = Scratch::new(alloc);
    let mut reader = Reader::new(text, &mut scratch).ok()?;
    let Some(Token::BeginObject) = reader.next() else {
        return None;
    };
    let mut found = None;
    // (an object has fewer members than bytes)
    for _ in 0..text.len() {
        let at = reader.offset();
        let Some(key) = reader.next_key().ok()? else {
            break;
        };
        if key == name {
            found = Some(Member {
                name: start.saturating_add(at),
                value: start.saturating_add(reader.offset()),
            });
        }
        reader.skip_value(MAX_DEPTH).ok()?;
    }
    found
}

/// Where the item of this number begins, of the array that begins behind this byte.
#[inline(never)]
fn item_in(alloc: Global, manifest: &[u8], start: usize, nth: usize) -> Option<usize> {
    let text = str::from_utf8(&manifest[start.min(manifest.len())..]).ok()?;
    let mut scratch = Scratch::new(alloc);
    let mut reader = Reader::new(text, &mut scratch).ok()?;
    let Some(Token::BeginArray) = reader.next() else {
        return None;
    };
    for _ in 0..nth {
        reader.skip_value(MAX_DEPTH).ok()?;
    }
    Some(start.saturating_add(reader.offset()))
}

// ---- as a person counts

/// The line and the character of a byte, both from 1.
pub(crate) fn line_and_column(text: &[u8], at: usize) -> (usize, usize) {
    let mut line = 1usize;
    let mut column = 1usize;
    for byte in &text[..at.min(text.len())] {
        if *byte == b'\n' {
            line = line.saturating_add(1);
            column = 1;
        } else if *byte & 0xC0 != 0x80 {
            column = column.saturating_add(1);
        }
    }
    (line, column)
}
