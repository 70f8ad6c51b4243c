//! Keys and values in a text.

ghost use Rattle.std.specs.Prelude.{◌≡◌, ◌++◌, OnOk, string_bytes};
ghost use Rattle.eos_text.specs.Adding.{Adds};
ghost use Rattle.eos_segment.specs.Lines.{hex_or_null};

use bytes::Bytes;
use std::alloc::{AllocError, Global};

/// Adds a label and a key or a value, in hexadecimal digits or `null`.
pub(crate) fn push_hex(
    alloc: Global,
    out: &mut String,
    label: &str,
    bytes: &Option<Bytes>,
) -> Result<(), AllocError>
    ensures { OnOk result (Adds (string_bytes out.old) (string_bytes out.new) (label.now ++ hex_or_null bytes.now)) }
{
    out.push_str(label)?;
    match bytes {
        None => out.push_str("null"),
        Some(bytes) => {
            let digits = hex::encode(alloc, bytes.as_slice())?;
            out.push_str(&digits)
        }
    }
}
