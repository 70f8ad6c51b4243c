//! The words that give an application, GROUP:SOURCE,..:OUTPUT,...

ghost use Rattle.std.specs.Prelude.{◌≡◌, IfOk, option_map, string_bytes};
ghost use Rattle.eos_manifest.specs.AppWords.{topics_in, group_in, app_with, app_in_word};

use crate::divided::{first_piece, split_at_last};
use bytes::Bytes;
use eos_base::Listed;
use eos_evidence::{App, GroupId, is_topic_name};
use std::alloc::{AllocError, Global};
use std::str;

/// The application that a word gives, or nothing where it is none.
///
/// # Errors
/// A growth of memory was refused.
pub fn read_app_word(alloc: Global, word: &[u8]) -> Result<Option<App>, AllocError>
    ensures { IfOk result (λ app. app ≡ app_in_word word.now) }
{
    let Some((front, outputs)) = split_at_last(word, b':') else {
        return Ok(None);
    };
    let Some((group, sources)) = split_at_last(front, b':') else {
        return Ok(None);
    };
    make_app(alloc, group, sources, outputs)
}

fn make_app(
    alloc: Global,
    group: &[u8],
    sources: &[u8],
    outputs: &[u8],
) -> Result<Option<App>, AllocError>
    ensures { IfOk result (λ app. app ≡ app_with group.now sources.now outputs.now) }
{
    let Some(group) = read_group(alloc, group)? else {
        return Ok(None);
    };
    let Some(sources) = read_topics(alloc, sources)? else {
        return Ok(None);
    };
    let Some(outputs) = read_topics(alloc, outputs)? else {
        return Ok(None);
    };
    Ok(Some(App {
        group: GroupId::new(group),
        sources: Listed::new(sources),
        outputs: Listed::new(outputs),
    }))
}

#[tactic(auto, using(crate::proofs::ItemsOfWords::group_is, crate::proofs::ItemsOfWords::group_no))]
fn read_group(alloc: Global, text: &[u8]) -> Result<Option<String>, AllocError>
    ensures { IfOk result (λ group. option_map string_bytes group ≡ group_in text.now) }
{
    match str::from_utf8(text) {
        Ok(group) => Ok(Some(String::from_str(alloc, group)?)),
        Err(_) => Ok(None),
    }
}

/// The topics between commas, or nothing where one can't be a topic's name.
fn read_topics(alloc: Global, text: &[u8]) -> Result<Option<Vec<Bytes>>, AllocError>
    ensures { IfOk result (λ topics. option_map (λ v. v.items) topics ≡ topics_in text.now) }
{
    let mut topics = Vec::new(alloc);
    let mut rest = Some(text);
    while let Some(text) = rest {
        let (topic, after) = first_piece(text, b',');
        if !is_topic_name(topic) {
            return Ok(None);
        }
        topics.push(Bytes::copy_from_slice(alloc, topic)?)?;
        rest = after;
    }
    Ok(Some(topics))
}
