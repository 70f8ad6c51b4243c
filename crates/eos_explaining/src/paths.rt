//! Paths of segments and of partitions' folders, as a shell reads them.

ghost use Rattle.std.specs.Prelude.{◌≡◌, IfOk, OnOk, string_bytes};
ghost use Rattle.std.specs.Fmt.{decimal};
ghost use Rattle.std.specs.List.{list_any};
ghost use Rattle.eos_text.specs.Adding.{Adds};
ghost use Rattle.eos_explaining.specs.Commands.{is_odd, is_unsaid, folder_quote, folder_text, zeros_before, number_text, path_text, partition_path};

use eos_base::PartitionName;
use eos_story::push_name;
use eos_text::push_text;
use std::alloc::{AllocError, Global};

/// Whether a shell may read this byte otherwise than as itself.
fn is_odd(byte: u8) -> bool
    ensures { result ≡ is_odd byte }
{
    !(byte.is_ascii_alphanumeric()
        || byte == b'/'
        || byte == b'.'
        || byte == b'_'
        || byte == b'-'
        || byte >= 128)
}

/// Whether quotes don't help with this byte: it is a quote, or a control character.
fn is_unsaid(byte: u8) -> bool
    ensures { result ≡ is_unsaid byte }
{
    byte == b'\'' || byte < 32 || byte == 127
}

fn has_odd(bytes: &[u8]) -> bool
    ensures { result ≡ list_any is_odd bytes.now }
{
    for byte in bytes {
        if is_odd(*byte) {
            return true;
        }
    }
    false
}

fn has_unsaid(bytes: &[u8]) -> bool
    ensures { result ≡ list_any is_unsaid bytes.now }
{
    for byte in bytes {
        if is_unsaid(*byte) {
            return true;
        }
    }
    false
}

/// What stands around the path of a folder in a command, so that a shell reads it as it is.
fn folder_quote(folder: &str) -> &'static str
    ensures { result.now ≡ folder_quote folder.now }
{
    if has_odd(folder.as_bytes()) && !has_unsaid(folder.as_bytes()) {
        "'"
    } else {
        ""
    }
}

/// The path of a folder in a command; `FOLDER` where no quotes help.
fn folder_text<'a>(folder: &'a str) -> &'a str
    ensures { result.now ≡ folder_text folder.now }
{
    if has_unsaid(folder.as_bytes()) {
        "FOLDER"
    } else {
        folder
    }
}

/// The zeros before so many digits, of twenty.
fn zeros_before(digits: usize) -> &'static str
    ensures { result.now ≡ zeros_before digits }
{
    match digits {
        1 => "0000000000000000000",
        2 => "000000000000000000",
        3 => "00000000000000000",
        4 => "0000000000000000",
        5 => "000000000000000",
        6 => "00000000000000",
        7 => "0000000000000",
        8 => "000000000000",
        9 => "00000000000",
        10 => "0000000000",
        11 => "000000000",
        12 => "00000000",
        13 => "0000000",
        14 => "000000",
        15 => "00000",
        16 => "0000",
        17 => "000",
        18 => "00",
        19 => "0",
        _ => "",
    }
}

/// A number in decimal digits.
fn digits_of(alloc: Global, base: u64) -> Result<String, AllocError>
    ensures { IfOk result (λ digits. string_bytes digits ≡ decimal base) }
{
    format!(in alloc; "{base}")
}

/// Adds a segment's name: 20 digits.
#[tactic(auto, unfolding(crate::specs::Commands::number_text))]
fn push_number(alloc: Global, out: &mut String, base: u64) -> Result<(), AllocError>
    ensures { OnOk result (Adds (string_bytes out.old) (string_bytes out.new) (number_text base)) }
{
    let digits = digits_of(alloc, base)?;
    push_text(out, zeros_before(digits.len()))?;
    push_text(out, digits.as_str())?;
    Ok(())
}

/// Adds the path of a segment.
pub(crate) fn push_path(
    alloc: Global,
    out: &mut String,
    folder: &str,
    name: &PartitionName,
    base: u64,
) -> Result<(), AllocError>
    ensures { OnOk result (Adds (string_bytes out.old) (string_bytes out.new) (path_text folder.now name.now base)) }
{
    let quote = folder_quote(folder);
    push_text(out, quote)?;
    push_text(out, folder_text(folder))?;
    push_name(alloc, out, "/", name)?;
    push_text(out, "/")?;
    push_number(alloc, out, base)?;
    push_text(out, ".log")?;
    push_text(out, quote)
}

/// Adds the path of a partition's folder.
pub(crate) fn push_partition_path(
    alloc: Global,
    out: &mut String,
    folder: &str,
    name: &PartitionName,
) -> Result<(), AllocError>
    ensures { OnOk result (Adds (string_bytes out.old) (string_bytes out.new) (partition_path folder.now name.now)) }
{
    let quote = folder_quote(folder);
    push_text(out, quote)?;
    push_text(out, folder_text(folder))?;
    push_name(alloc, out, "/", name)?;
    push_text(out, quote)
}
