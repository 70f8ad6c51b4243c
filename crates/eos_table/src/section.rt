//! The section of tagged fields at the end of a value in the flexible form. Since KIP-890 a broker writes the transaction's version there,
//! the same bytes in each value, so they are looked into once.

ghost use Rattle.std.specs.Prelude.{◌≡◌, true, length, IfOk, IfSome};
ghost use Rattle.eos_wire.specs.FieldWriting.{section_text};
ghost use Rattle.eos_wire.specs.Texts.{IsSectionText};
ghost use Rattle.eos_wire.specs.declared.form.Form.TheVariants.{Flexible};

use bytes::Bytes;
use eos_wire::{Cursor, Form, are_bytes, skip_section};
use std::alloc::{AllocError, Global};
use std::marker::Model;

/// The bytes of a section, which contracts see as their list.
#[derive(Drop)]
pub(crate) struct Section {
    bytes: Bytes,
}

impl Model for Section {
    ghost use Rattle.std.specs.Prelude.{List, ℕ};
    ghost use Rattle.eos_wire.specs.Texts.{IsSectionText};
    ghost use Rattle.eos_wire.specs.declared.form.Form.TheVariants.{Flexible};

    ghost Value = { List ℕ };

    ghost view = { λ s. s.bytes };

    ghost invariant = { λ s. IsSectionText Flexible s.bytes };
}

/// Whether the bytes are a section, and nothing else.
fn is_section(bytes: &Bytes) -> bool
    ensures { result ≡ true → IsSectionText Flexible bytes.now }
{
    are_bytes(bytes.as_slice());
    let mut rest = Cursor::new(bytes);
    match skip_section(&mut rest, Form::Flexible) {
        Ok(()) => rest.is_empty(),
        Err(_) => false,
    }
}

impl Section {
    /// The section that these bytes are, if they are one.
    pub fn of(alloc: Global, bytes: &[u8]) -> Result<Option<Section>, AllocError>
        ensures { IfOk result (λ found. IfSome found (λ section. section ≡ bytes.now)) }
    {
        let bytes = Bytes::copy_from_slice(alloc, bytes)?;
        if is_section(&bytes) {
            Ok(Some(Section { bytes }))
        } else {
            Ok(None)
        }
    }

    /// The section without a field.
    #[tactic(auto, unfolding(eos_wire::specs::Writing::uvarint_of, eos_wire::specs::Writing::groups_of))]
    pub fn empty(alloc: Global) -> Result<Section, AllocError>
        ensures { IfOk result (λ section. section ≡ section_text Flexible) }
    {
        Ok(Section {
            bytes: Bytes::copy_from_slice(alloc, b"\x00".as_slice())?,
        })
    }

    pub fn as_slice(&self) -> &[u8]
        ensures value { result.now ≡ self.now }
        ensures section { IsSectionText Flexible self.now }
    {
        self.bytes.as_slice()
    }
}
