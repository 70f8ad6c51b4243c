//! Texts in a page: what HTML could take for markup is said by its number.

ghost use Rattle.std.specs.Prelude.{◌≡◌, [], ◌∷◌, ◌++◌, OnOk, codes, string_bytes};
ghost use Rattle.std.specs.Fmt.{decimal};
ghost use Rattle.hex.specs.Hex.{encode_lower};
ghost use Rattle.eos_text.specs.Adding.{Adds};
ghost use Rattle.eos_report.specs.Html.{is_markup, is_shown, html_byte, html};

use std::alloc::{AllocError, Global};

/// Adds a text.
pub(crate) fn push_html(alloc: Global, out: &mut String, text: &str) -> Result<(), AllocError>
    ensures { OnOk result (Adds (string_bytes out.old) (string_bytes out.new) (html text.now)) }
{
    push_bytes(alloc, out, text.as_bytes())
}

fn push_bytes(alloc: Global, out: &mut String, bytes: &[u8]) -> Result<(), AllocError>
    ensures { OnOk result (Adds (string_bytes out.old) (string_bytes out.new) (html bytes.now)) }
{
    for byte in bytes {
        push_byte(alloc, out, *byte)?;
    }
    Ok(())
}

#[tactic(auto, unfolding(crate::specs::Html::html_byte))]
fn push_byte(alloc: Global, out: &mut String, byte: u8) -> Result<(), AllocError>
    ensures { OnOk result (Adds (string_bytes out.old) (string_bytes out.new) (html_byte byte)) }
{
    if is_markup(byte) {
        push_number(out, byte)
    } else if is_shown(byte) {
        out.push(char::from(byte))
    } else {
        push_digits(alloc, out, byte)
    }
}

/// Adds a character by its number.
fn push_number(out: &mut String, byte: u8) -> Result<(), AllocError>
    ensures { OnOk result (Adds (string_bytes out.old) (string_bytes out.new) (codes "&#" ++ (decimal byte ++ codes ";"))) }
{
    write!(out, "&#{byte};")
}

/// Adds a byte by its digits.
fn push_digits(alloc: Global, out: &mut String, byte: u8) -> Result<(), AllocError>
    ensures { OnOk result (Adds (string_bytes out.old) (string_bytes out.new) (codes "%" ++ encode_lower (byte ∷ []))) }
{
    let digits = hex::encode(alloc, [byte].as_slice())?;
    out.push('%')?;
    out.push_str(&digits)
}

/// Whether HTML could take this byte for markup.
fn is_markup(byte: u8) -> bool
    ensures { result ≡ is_markup byte }
{
    byte == b'"' || byte == b'&' || byte == b'\'' || byte == b'<' || byte == b'>'
}

/// Whether this byte is a character that is shown, or ends a line.
fn is_shown(byte: u8) -> bool
    ensures { result ≡ is_shown byte }
{
    byte == b'\n' || byte >= 32 && byte < 127
}
