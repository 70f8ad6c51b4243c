//! The keys and values of Kafka's own logs.
//!
//! | Field of a key and of a value | Form | Meaning |
//! |---|---|---|
//! | shared | kind | -1 null; else how many first bytes it shares with the last of its kind that wasn't null |
//! | rest | text, unless null | the bytes behind those |
//!
//! A record is its key, its value, and its claim: kind 0 none; 1 a claim: topic (text), partition, offset, output, of. A text that
//! shares fewer bytes than it can is refused, so it has one spelling only. It can share at most 127, and of a long text not the last
//! sixteenth, so no text is more than 16 times as long as what stands of it.

ghost use Rattle.std.specs.Prelude.{◌≡◌, ◌++◌, ◌≤◌, ◌<◌, ◌+◌, ◌^◌, ◌==◌, [], true, length, take, nat_eq, option_map, Some, IfOk, IfErr, OnOk};
ghost use Rattle.std.specs.List.{common_prefix_len};
ghost use Rattle.eos_fold_file.specs.Faults.{Fails};
ghost use Rattle.eos_fold_file.specs.Legal.{Each, IsText, IsOptionalText, IsLegalText};
ghost use Rattle.eos_fold_file.specs.Texts.{most_shared, shared, last_text, shared_text, key_value_text, key_values_text, joined, rest_from, shared_from, key_value_from, key_values_from};
ghost use Rattle.eos_fold_file.specs.steps.Faults.{Gives};
ghost use Rattle.eos_fold_file.specs.steps.TextLists.{plain_text};
ghost use Rattle.eos_fold_file.specs.steps.TextsRead.{text_there, Becomes, GivesText, IsTextRead};

use crate::claim::{read_optional_claim, write_optional_claim};
use crate::fault::FoldFault;
use crate::fold_texts::{FoldTexts, TextRef};
use crate::number::{read_kind, read_text_bytes, write_slice};
use eos_reading::KeptList;
use eos_wire::{Cursor, write_i8};
use std::alloc::{AllocError, Global};

/// The most bytes that are shared.
const MOST: usize = 127;

/// What stands of a text is at least its length by this number.
const SHARE: usize = 16;

/// How many first bytes both have in common.
fn common(front: &[u8], text: &[u8]) -> usize
    ensures { result ≡ common_prefix_len nat_eq front.now text.now }
{
    let most = front.len().min(text.len());
    for i in 0..most {
        if front[i] != text[i] {
            return i;
        }
    }
    most
}

/// How many first bytes a text of so many can share.
fn most_shared(len: usize) -> usize
    requires { len + 1 < 2 ^ 64 }
    ensures { result ≡ most_shared len }
{
    MOST.min(len + 1 - len / SHARE)
}

/// How many first bytes a text shares with the one before.
fn shared(before: &[u8], text: &[u8]) -> usize
    ensures value { result ≡ shared before.now text.now }
    ensures few { result ≤ 127 }
    ensures within { result ≤ length text.now }
{
    common(&before[..most_shared(text.len()).min(before.len())], text)
}

// ---- reading

/// Whether a text with so many first bytes of the one before, and these behind them, shares no more bytes with it.
#[tactic(auto, using(crate::proofs::Shared::joined_many, crate::proofs::Shared::joined_top, crate::proofs::Shared::joined_whole, crate::proofs::Shared::joined_alone))]
fn is_most(before: &[u8], count: usize, rest: &[u8]) -> bool
    requires { count ≤ length before.now }
    ensures { result ≡ (shared before.now (take count before.now ++ rest.now) == count) }
{
    let most = most_shared(count + rest.len());
    if count > most {
        return false;
    }
    if count == most || count == before.len() {
        return true;
    }
    if rest.is_empty() {
        return true;
    }
    before[count] != rest[0]
}

/// Makes the text before the one that shares so many bytes with it, and no more.
#[tactic(auto, using(crate::proofs::Shared::joined_far, crate::proofs::Shared::joined_fewer, crate::proofs::Shared::joined_some))]
fn join(before: &mut Vec<u8>, count: usize, rest: &[u8]) -> Result<(), FoldFault>
    ensures { Becomes result before.new.items (joined before.old.items count rest.now) }
{
    if before.len() < count {
        return Err(FoldFault::Record);
    }
    if !is_most(before.as_slice(), count, rest) {
        return Err(FoldFault::Record);
    }
    before.truncate(count);
    before.extend_from_slice(rest)?;
    Ok(())
}

#[tactic(auto, unfolding(crate::specs::Texts::rest_from))]
fn read_rest(rest: &mut Cursor<'_>, before: &mut Vec<u8>, count: usize) -> Result<bool, FoldFault>
    ensures text { GivesText result before.new.items rest.new (rest_from before.old.items count rest.old) }
    ensures some { IfOk result (λ some. some ≡ true) }
{
    let behind = read_text_bytes(rest)?;
    join(before, count, behind.rest())?;
    Ok(true)
}

/// Reads a text, which becomes the one before, unless it is null. Returns whether it isn't.
#[tactic(auto, unfolding(crate::specs::Texts::shared_from))]
fn read_shared(rest: &mut Cursor<'_>, before: &mut Vec<u8>) -> Result<bool, FoldFault>
    ensures text { GivesText result before.new.items rest.new (shared_from before.old.items rest.old) }
    ensures last { IfOk result (λ some. before.new.items ≡ last_text before.old.items (text_there some before.new.items)) }
{
    let shared = read_kind(rest)?;
    if shared == -1 {
        return Ok(false);
    }
    if shared < 0 {
        return Err(FoldFault::Record);
    }
    read_rest(rest, before, shared as usize)
}

/// A text, where it isn't null.
fn there(some: bool, text: &[u8]) -> Option<&[u8]>
    ensures { option_map (λ s. s.now) result ≡ text_there some text.now }
{
    if some { Some(text) } else { None }
}

/// Reads a record behind others. Its key and its value become those before, where they aren't null.
#[tactic(auto, using(crate::proofs::TextLoop::text_read), unfolding(crate::specs::Texts::key_value_from))]
fn read_text(
    alloc: Global,
    rest: &mut Cursor<'_>,
    key: &mut Vec<u8>,
    value: &mut Vec<u8>,
    texts: &mut FoldTexts,
) -> Result<(), FoldFault>
    ensures ok { OnOk result (IsTextRead key.old.items value.old.items rest.old texts.old (key.new.items, value.new.items, rest.new, texts.new)) }
    ensures err { IfErr result (λ e. Fails e (key_value_from key.old.items value.old.items rest.old)) }
{
    let has_key = read_shared(rest, key)?;
    let has_value = read_shared(rest, value)?;
    let claim = read_optional_claim(alloc, rest)?;
    let key = there(has_key, key.as_slice());
    let value = there(has_value, value.as_slice());
    texts.push(alloc, key, value, claim)?;
    Ok(())
}

/// So many records. No more is kept than what was read says, whatever the count.
pub(crate) fn read_texts(
    alloc: Global,
    rest: &mut Cursor<'_>,
    count: u64,
) -> Result<FoldTexts, FoldFault>
    ensures { Gives result rest.new (key_values_from [] [] count rest.old) }
{
    let mut texts = FoldTexts::of(alloc, KeptList::new(alloc));
    let mut key = Vec::new(alloc);
    let mut value = Vec::new(alloc);
    for _ in 0..count {
        read_text(alloc, rest, &mut key, &mut value, &mut texts)?;
    }
    Ok(texts)
}

// ---- writing

fn write_some(out: &mut Vec<u8>, before: &[u8], text: &[u8]) -> Result<(), AllocError>
    ensures text { OnOk result (out.new.items ≡ out.old.items ++ shared_text before.now (Some text.now)) }
    ensures fit { OnOk result (IsText text.now) }
{
    let count = shared(before, text);
    write_i8(out, count as i8)?;
    write_slice(out, &text[count..])
}

fn write_shared(out: &mut Vec<u8>, before: &[u8], text: Option<&[u8]>) -> Result<(), AllocError>
    ensures text { OnOk result (out.new.items ≡ out.old.items ++ shared_text before.now (option_map (λ s. s.now) text.entry)) }
    ensures fit { OnOk result (IsOptionalText (option_map (λ s. s.now) text.entry)) }
{
    match text {
        None => write_i8(out, -1),
        Some(text) => write_some(out, before, text),
    }
}

fn write_text(
    out: &mut Vec<u8>,
    key_before: &[u8],
    value_before: &[u8],
    text: TextRef<'_>,
) -> Result<(), AllocError>
    ensures text { OnOk result (out.new.items ≡ out.old.items ++ key_value_text key_before.now value_before.now (plain_text text.entry)) }
    ensures fit { OnOk result (IsLegalText (plain_text text.entry)) }
{
    write_shared(out, key_before, text.key)?;
    write_shared(out, value_before, text.value)?;
    write_optional_claim(out, text.claim)
}

/// The last text that isn't null.
fn last_of<'a>(before: &'a [u8], text: Option<&'a [u8]>) -> &'a [u8]
    ensures { result.now ≡ last_text before.now (option_map (λ s. s.now) text.entry) }
{
    match text {
        None => before,
        Some(text) => text,
    }
}

/// Appends records, one after the other.
pub(crate) fn write_texts(out: &mut Vec<u8>, texts: &FoldTexts) -> Result<(), AllocError>
    ensures text { OnOk result (out.new.items ≡ out.old.items ++ key_values_text [] [] texts.now) }
    ensures fit { OnOk result (Each IsLegalText texts.now) }
{
    let mut key: &[u8] = &[];
    let mut value: &[u8] = &[];
    for i in 0..texts.len() {
        let text = texts.view(i);
        write_text(out, key, value, text)?;
        key = last_of(key, text.key);
        value = last_of(value, text.value);
    }
    Ok(())
}
