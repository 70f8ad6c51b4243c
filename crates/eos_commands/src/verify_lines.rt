//! What is printed of a comparison of folds with logs.

ghost use Rattle.std.specs.Prelude.{◌≡◌, ◌++◌, codes, IfOk, OnOk, string_bytes};
ghost use Rattle.eos_text.specs.Adding.{Adds};
ghost use Rattle.eos_commands.specs.VerifyingLines.{is_same, is_as, count_of, line_of, lines_of, counts_line, found_text, status_of};

use crate::found::{Found, Likeness};
use eos_text::{push_text, push_value};
use std::alloc::{AllocError, Global};

/// A line `stale PATH` or `forged PATH` for each fold that isn't its log's, and the last one, `compared right=R stale=S forged=F
/// unmatched=U`, on how many there are of each sort; the logs of the last aren't at hand.
///
/// # Errors
/// A growth of memory was refused.
pub fn found_text(alloc: Global, found: &[Found]) -> Result<String, AllocError>
    ensures { IfOk result (λ text. string_bytes text ≡ found_text found.now) }
{
    let mut text = lines_of(alloc, found)?;
    push_counts(&mut text, found)?;
    Ok(text)
}

fn lines_of(alloc: Global, found: &[Found]) -> Result<String, AllocError>
    ensures { IfOk result (λ text. string_bytes text ≡ lines_of found.now) }
{
    let mut text = String::new(alloc);
    for it in found {
        push_line(&mut text, it.how, it.path.as_str())?;
    }
    Ok(text)
}

/// The exit status: 1 where a fold isn't its log's, 2 where none was compared, and else 0.
pub fn status_of(found: &[Found]) -> u8
    ensures { result ≡ status_of found.now }
{
    if count_of(found, Some(Likeness::Stale)) > 0 {
        1
    } else if count_of(found, Some(Likeness::Forged)) > 0 {
        1
    } else if count_of(found, Some(Likeness::Right)) == 0 {
        2
    } else {
        0
    }
}

fn push_line(out: &mut String, how: Option<Likeness>, path: &str) -> Result<(), AllocError>
    ensures { OnOk result (Adds (string_bytes out.old) (string_bytes out.new) (line_of how path.now)) }
{
    match how {
        None | Some(Likeness::Right) => push_text(out, ""),
        Some(Likeness::Stale) => push_named(out, "stale ", path),
        Some(Likeness::Forged) => push_named(out, "forged ", path),
    }
}

fn push_named(out: &mut String, word: &str, path: &str) -> Result<(), AllocError>
    ensures { OnOk result (Adds (string_bytes out.old) (string_bytes out.new) ((word.now ++ path.now) ++ codes "\n")) }
{
    push_text(out, word)?;
    push_text(out, path)?;
    push_text(out, "\n")?;
    Ok(())
}

fn push_counts(out: &mut String, found: &[Found]) -> Result<(), AllocError>
    ensures { OnOk result (Adds (string_bytes out.old) (string_bytes out.new) (counts_line found.now)) }
{
    let right = count_of(found, Some(Likeness::Right));
    push_value(out, "compared right=", &right)?;
    let stale = count_of(found, Some(Likeness::Stale));
    push_value(out, " stale=", &stale)?;
    let forged = count_of(found, Some(Likeness::Forged));
    push_value(out, " forged=", &forged)?;
    let unmatched = count_of(found, None);
    push_value(out, " unmatched=", &unmatched)?;
    push_text(out, "\n")?;
    Ok(())
}

fn count_of(found: &[Found], asked: Option<Likeness>) -> u64
    ensures { result ≡ count_of found.now asked }
{
    let mut count = 0u64;
    for it in found {
        if is_as(asked, it.how) {
            count += 1;
        }
    }
    count
}

fn is_as(asked: Option<Likeness>, how: Option<Likeness>) -> bool
    ensures { result ≡ is_as asked how }
{
    match asked {
        None => how.is_none(),
        Some(asked) => match how {
            None => false,
            Some(how) => is_same(asked, how),
        },
    }
}

fn is_same(asked: Likeness, how: Likeness) -> bool
    ensures { result ≡ is_same asked how }
{
    match asked {
        Likeness::Right => matches!(how, Likeness::Right),
        Likeness::Stale => matches!(how, Likeness::Stale),
        Likeness::Forged => matches!(how, Likeness::Forged),
    }
}
