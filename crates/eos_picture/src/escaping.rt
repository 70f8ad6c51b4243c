//! Text that can't end a tag or an attribute.

ghost use Rattle.std.specs.Prelude.{◌≡◌, OnOk, string_bytes};
ghost use Rattle.eos_text.specs.Adding.{Adds};
ghost use Rattle.eos_picture.specs.Escaping.{is_markup, is_plain, stand_in, xml_byte, xml_text};

use std::alloc::AllocError;

/// Adds a text as XML's character data. What markup begins or ends with is an entity, and each byte that isn't a printable
/// character of ASCII is `?`, since XML 1.0 forbids control characters, and since the bytes needn't be UTF-8.
pub(crate) fn push_xml(out: &mut String, bytes: &[u8]) -> Result<(), AllocError>
    ensures { OnOk result (Adds (string_bytes out.old) (string_bytes out.new) (xml_text bytes.now)) }
{
    for byte in bytes {
        push_byte(out, *byte)?;
    }
    Ok(())
}

fn push_byte(out: &mut String, byte: u8) -> Result<(), AllocError>
    ensures { OnOk result (Adds (string_bytes out.old) (string_bytes out.new) (xml_byte byte)) }
{
    if is_plain(byte) {
        out.push(char::from(byte))
    } else {
        out.push_str(stand_in(byte))
    }
}

/// Whether markup begins or ends with this byte.
fn is_markup(byte: u8) -> bool
    ensures { result ≡ is_markup byte }
{
    byte == b'&' || byte == b'<' || byte == b'>' || byte == b'"' || byte == b'\''
}

/// Whether the byte stands for itself.
fn is_plain(byte: u8) -> bool
    ensures { result ≡ is_plain byte }
{
    32 <= byte && byte < 127 && !is_markup(byte)
}

/// What stands for a byte that doesn't stand for itself.
fn stand_in(byte: u8) -> &'static str
    ensures { result.now ≡ stand_in byte }
{
    match byte {
        b'&' => "&amp;",
        b'<' => "&lt;",
        b'>' => "&gt;",
        b'"' => "&quot;",
        b'\'' => "&apos;",
        _ => "?",
    }
}
