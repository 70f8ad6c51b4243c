//! How a page ends: the stories of its faults, and their pictures.

ghost use Rattle.std.specs.Prelude.{OnOk, string_bytes};
ghost use Rattle.std.specs.List.{flat_map};
ghost use Rattle.eos_text.specs.Adding.{Adds};
ghost use Rattle.eos_report.specs.Tellings.{lack_text, shown_story, story_text, shown_picture, picture_text, telling_text, heading_text, tellings_text, end_text};

use crate::html::push_html;
use eos_text::{push_text, push_value};
use std::alloc::{AllocError, Global};

/// A text of the page, or why there is none.
#[derive(Drop)]
pub enum Told {
    Text(String),
    Lacking(String),
}

/// What is told of a fault.
#[derive(Drop)]
pub struct Telling {
    /// Its number in the list of all, from 1 on.
    pub number: u64,
    pub story: Told,
    /// An SVG document without a declaration, which becomes a part of the page as it is.
    pub picture: Told,
}

/// Ends a page with these.
///
/// # Errors
/// Only want of memory.
pub fn end_page(alloc: Global, out: &mut String, tellings: &[Telling]) -> Result<(), AllocError>
    ensures { OnOk result (Adds (string_bytes out.old) (string_bytes out.new) (end_text tellings.now)) }
{
    push_tellings(alloc, out, tellings)?;
    push_text(out, "</body>\n</html>\n")
}

fn push_tellings(alloc: Global, out: &mut String, tellings: &[Telling]) -> Result<(), AllocError>
    ensures { OnOk result (Adds (string_bytes out.old) (string_bytes out.new) (tellings_text tellings.now)) }
{
    push_heading(out, tellings.is_empty())?;
    push_items(alloc, out, tellings)
}

fn push_heading(out: &mut String, none: bool) -> Result<(), AllocError>
    ensures { OnOk result (Adds (string_bytes out.old) (string_bytes out.new) (heading_text none)) }
{
    if none {
        push_text(out, "")
    } else {
        push_text(out, "<h2>Where the faults come from</h2>\n")
    }
}

fn push_items(alloc: Global, out: &mut String, tellings: &[Telling]) -> Result<(), AllocError>
    ensures { OnOk result (Adds (string_bytes out.old) (string_bytes out.new) (flat_map telling_text tellings.now)) }
{
    for telling in tellings {
        push_telling(alloc, out, telling)?;
    }
    Ok(())
}

fn push_telling(alloc: Global, out: &mut String, telling: &Telling) -> Result<(), AllocError>
    ensures { OnOk result (Adds (string_bytes out.old) (string_bytes out.new) (telling_text telling.now)) }
{
    push_value(out, "<h3>Fault ", &telling.number)?;
    push_text(out, "</h3>\n")?;
    push_story(alloc, out, &telling.story)?;
    push_picture(alloc, out, &telling.picture)
}

fn push_story(alloc: Global, out: &mut String, told: &Told) -> Result<(), AllocError>
    ensures { OnOk result (Adds (string_bytes out.old) (string_bytes out.new) (story_text told.now)) }
{
    match told {
        Told::Text(text) => push_shown(alloc, out, text.as_str()),
        Told::Lacking(why) => push_lack(alloc, out, "No story", why.as_str()),
    }
}

fn push_shown(alloc: Global, out: &mut String, text: &str) -> Result<(), AllocError>
    ensures { OnOk result (Adds (string_bytes out.old) (string_bytes out.new) (shown_story text.now)) }
{
    push_text(out, "<pre>")?;
    push_html(alloc, out, text)?;
    push_text(out, "</pre>\n")
}

fn push_picture(alloc: Global, out: &mut String, told: &Told) -> Result<(), AllocError>
    ensures { OnOk result (Adds (string_bytes out.old) (string_bytes out.new) (picture_text told.now)) }
{
    match told {
        Told::Text(text) => push_drawn(out, text.as_str()),
        Told::Lacking(why) => push_lack(alloc, out, "No picture", why.as_str()),
    }
}

fn push_drawn(out: &mut String, text: &str) -> Result<(), AllocError>
    ensures { OnOk result (Adds (string_bytes out.old) (string_bytes out.new) (shown_picture text.now)) }
{
    push_text(out, "<div>\n")?;
    push_text(out, text)?;
    push_text(out, "</div>\n")
}

fn push_lack(alloc: Global, out: &mut String, what: &str, why: &str) -> Result<(), AllocError>
    ensures { OnOk result (Adds (string_bytes out.old) (string_bytes out.new) (lack_text what.now why.now)) }
{
    push_text(out, "<p>")?;
    push_text(out, what)?;
    push_text(out, ": ")?;
    push_html(alloc, out, why)?;
    push_text(out, "</p>\n")
}
