//! What is kept of the records of Kafka's own logs, one after the other.

ghost use Rattle.std.specs.Prelude.{◌≡◌, ◌++◌, ◌∷◌, [], ◌<◌, ◌+◌, ◌≤◌, length, option_map, slice_get, Some, None, OnOk, OnErr, IfOk, IsTrue, true, if◌then◌else◌};
ghost use Rattle.eos_claims.specs.Slots.{plain_claim};
ghost use Rattle.eos_reading.specs.Records.{record_of, ReadsBack};
ghost use Rattle.eos_reading.specs.Texts.{HasRoom};

use crate::kept_list::KeptList;
use crate::packed_texts::PackedTexts;
use crate::record::KeptRecord;
use crate::text::KeptText;
use eos_batch::Record;
use eos_claims::ClaimRef;
use std::alloc::{AllocError, Global};
use std::marker::Model;

/// How they lie in memory.
#[derive(Drop)]
enum Form {
    /// Together: none has a claim, and all numbers are small. So do those of all logs but a few.
    Packed(PackedTexts),
    /// Each by itself.
    Loose(Vec<KeptText>),
}

/// What is kept of the records of Kafka's own logs: of each a copy of its key and its value, and the claim in its headers, where there
/// is one. Contracts see a list of records that have no more than that, and for how much there is room.
#[derive(Drop)]
pub struct KeptTexts {
    form: Form,
}

impl Model for KeptTexts {
    ghost use Rattle.eos_reading.specs.Texts.{TextsView};
    ghost use Rattle.eos_reading.specs.steps.TextForms.{texts_in};

    ghost Value = { TextsView };

    ghost view = { λ t. texts_in t.form };
}

/// The same records, each by itself.
fn loosened(texts: &PackedTexts) -> Result<Vec<KeptText>, AllocError>
    ensures { IfOk result (λ loose. loose.items ≡ texts.now.list) }
{
    let alloc = texts.alloc();
    let mut loose = Vec::with_capacity(alloc, texts.len())?;
    for i in 0..texts.len() {
        let record = texts.view(i);
        loose.push(KeptText::new(alloc, record.key(), record.value(), None)?)?;
    }
    Ok(loose)
}

impl KeptTexts {
    /// Puts copies of a record's key and value, and of its claim, at the end.
    ///
    /// # Errors
    /// Only want of memory; then nothing more is kept.
    pub fn push(
        &mut self,
        alloc: Global,
        key: Option<&[u8]>,
        value: Option<&[u8]>,
        claim: Option<ClaimRef<'_>>,
    ) -> Result<(), AllocError>
        requires { ReadsBack (option_map plain_claim claim) }
        ensures ok { OnOk result (self.new.list ≡ self.old.list ++ record_of (option_map (λ s. s.now) key.entry) (option_map (λ s. s.now) value.entry) (option_map plain_claim claim.entry) ∷ []) }
        ensures err { OnErr result (self.new.list ≡ self.old.list) }
    {
        if claim.is_none() && self.push_packed(key, value)? {
            return Ok(());
        }
        self.loosen()?;
        self.push_loose(KeptText::new(alloc, key, value, claim)?)
    }

    /// Puts a record that has no claim behind these, where it can lie together with them, and returns whether.
    fn push_packed(&mut self, key: Option<&[u8]>, value: Option<&[u8]>) -> Result<bool, AllocError>
        ensures ok { IfOk result (λ fits. self.new.list ≡ (if fits then self.old.list ++ record_of (option_map (λ s. s.now) key.entry) (option_map (λ s. s.now) value.entry) None ∷ [] else self.old.list)) }
        ensures err { OnErr result (self.new.list ≡ self.old.list) }
    {
        match &mut self.form {
            Form::Packed(texts) => texts.push(key, value),
            Form::Loose(_) => Ok(false),
        }
    }

    /// Lets each lie by itself.
    fn loosen(&mut self) -> Result<(), AllocError>
        ensures same { self.new.list ≡ self.old.list }
        ensures loose { OnOk result (self.new.is_loose ≡ true) }
    {
        if let Form::Packed(texts) = &self.form {
            let loose = loosened(texts)?;
            self.form = Form::Loose(loose);
        }
        Ok(())
    }

    /// Puts a record behind these, which lie each by itself.
    fn push_loose(&mut self, text: KeptText) -> Result<(), AllocError>
        requires { self.old.is_loose ≡ true }
        ensures ok { OnOk result (self.new.list ≡ self.old.list ++ text ∷ []) }
        ensures err { OnErr result (self.new.list ≡ self.old.list) }
    {
        let Form::Loose(texts) = &mut self.form else {
            unreachable!()
        };
        texts.push(text)?;
        Ok(())
    }

    /// Makes room for others behind these where all can lie together, and returns whether.
    fn reserve_packed(&mut self, more: &KeptTexts) -> Result<bool, AllocError>
        ensures same { self.new.list ≡ self.old.list }
        ensures room { IfOk result (λ fits. IsTrue fits → HasRoom self.new more.now) }
    {
        let Form::Packed(texts) = &mut self.form else {
            return Ok(false);
        };
        let Form::Packed(others) = &more.form else {
            return Ok(false);
        };
        texts.reserve(others)
    }

    /// Makes room for others behind these, where each lies by itself.
    fn reserve_loose(&mut self, more: &KeptTexts) -> Result<(), AllocError>
        requires form { self.old.is_loose ≡ true }
        requires others { more.now.is_loose ≡ true }
        ensures same { self.new.list ≡ self.old.list }
        ensures room { OnOk result (HasRoom self.new more.now) }
    {
        let Form::Loose(texts) = &mut self.form else {
            unreachable!()
        };
        let Form::Loose(others) = &more.form else {
            unreachable!()
        };
        texts.reserve(others.len())
    }

    /// What is kept of the record at this place, lent.
    pub fn view(&self, i: usize) -> KeptRecord<'_>
        requires { i < length self.now.list }
        ensures { slice_get self.now.list i ≡ Some result }
    {
        match &self.form {
            Form::Packed(texts) => texts.view(i),
            Form::Loose(texts) => texts[i].view(),
        }
    }

    /// Forgets all of them.
    pub fn clear(&mut self)
        ensures { self.new.list ≡ [] }
    {
        match &mut self.form {
            Form::Packed(texts) => texts.truncate(0),
            Form::Loose(texts) => {
                let alloc = *texts.allocator();
                self.form = Form::Packed(PackedTexts::new(alloc));
            }
        }
    }
}

impl KeptList for KeptTexts {
    ghost use Rattle.eos_reading.specs.Texts.{HasRoom};

    type One = Record;

    ghost list = { λ t. t.list };

    ghost has_room = { HasRoom };

    fn new(alloc: Global) -> KeptTexts {
        KeptTexts {
            form: Form::Packed(PackedTexts::new(alloc)),
        }
    }

    fn len(&self) -> usize {
        match &self.form {
            Form::Packed(texts) => texts.len(),
            Form::Loose(texts) => texts.len(),
        }
    }

    fn truncate(&mut self, count: usize) {
        match &mut self.form {
            Form::Packed(texts) => texts.truncate(count),
            Form::Loose(texts) => texts.truncate(count),
        }
    }

    fn make_room(&mut self, more: &mut KeptTexts) -> Result<(), AllocError> {
        if self.reserve_packed(more)? {
            return Ok(());
        }
        self.loosen()?;
        more.loosen()?;
        self.reserve_loose(more)
    }

    fn append(&mut self, more: KeptTexts) {
        let KeptTexts { form } = more;
        match (&mut self.form, form) {
            (Form::Packed(texts), Form::Packed(others)) => texts.append(&others),
            (Form::Loose(texts), Form::Loose(mut others)) => {
                let Ok(()) = texts.append(&mut others) else {
                    unreachable!()
                };
            }
            _ => unreachable!(),
        }
    }
}
