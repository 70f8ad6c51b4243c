//! Texts that grow at their end.

ghost use Rattle.std.specs.Prelude.{◌≡◌, ◌++◌, OnOk, IfSome, string_bytes};
ghost use Rattle.eos_text.specs.Adding.{Adds};
ghost use Rattle.eos_text.specs.Escaping.{escaped, escaped_byte, is_plain};

use std::alloc::{AllocError, Global};
use std::fmt::Display;

/// Adds a text.
pub fn push_text(out: &mut String, text: &str) -> Result<(), AllocError>
    ensures { OnOk result (Adds (string_bytes out.old) (string_bytes out.new) text.now) }
{
    out.push_str(text)
}

/// Adds a label and what `{}` writes of a value.
pub fn push_value<T: Display>(out: &mut String, label: &str, value: &T) -> Result<(), AllocError>
    ensures { OnOk result (IfSome (T.output value.now) (λ text. Adds (string_bytes out.old) (string_bytes out.new) (label.now ++ text))) }
{
    write!(out, "{label}{value}")
}

/// Adds a label and a topic or an id. Each byte that no topic may have is `%` and two hexadecimal digits.
pub fn push_escaped(
    alloc: Global,
    out: &mut String,
    label: &str,
    bytes: &[u8],
) -> Result<(), AllocError>
    ensures { OnOk result (Adds (string_bytes out.old) (string_bytes out.new) (label.now ++ escaped bytes.now)) }
{
    out.push_str(label)?;
    push_bytes(alloc, out, bytes)
}

fn push_bytes(alloc: Global, out: &mut String, bytes: &[u8]) -> Result<(), AllocError>
    ensures { OnOk result (Adds (string_bytes out.old) (string_bytes out.new) (escaped bytes.now)) }
{
    for byte in bytes {
        push_byte(alloc, out, *byte)?;
    }
    Ok(())
}

fn push_byte(alloc: Global, out: &mut String, byte: u8) -> Result<(), AllocError>
    ensures { OnOk result (Adds (string_bytes out.old) (string_bytes out.new) (escaped_byte byte)) }
{
    if is_plain(byte) {
        return out.push(char::from(byte));
    }
    let digits = hex::encode(alloc, [byte].as_slice())?;
    out.push('%')?;
    out.push_str(&digits)
}

/// Whether a topic may have this byte.
fn is_plain(byte: u8) -> bool
    ensures { result ≡ is_plain byte }
{
    byte.is_ascii_alphanumeric() || byte == b'.' || byte == b'_' || byte == b'-'
}
