//! What was read of the records of the transaction log, so that equal bytes aren't read again. A log has few keys,
//! and few sets of partitions, in many records.

ghost use Rattle.std.specs.Prelude.{◌≡◌, true, Some, Ok, IfOk, IfSome};
ghost use Rattle.std.specs.Option.{option_map};
ghost use Rattle.eos_txnlog.specs.Reading.{read_key, read_value};
ghost use Rattle.eos_table.specs.TransactionLog.{content_of, content_of_value};
ghost use Rattle.std.specs.Arc.{arc_value};
ghost use Rattle.eos_table.specs.steps.Known.{IsSetText};
ghost use Rattle.eos_table.specs.steps.Reads.{content_read};

use crate::around::{Around, HEAD, TIMES, fields_around, form_in, is_same, set_text, version_of};
use crate::content::{read_id, read_state};
use crate::section::Section;
use crate::shared::{Sets, empty_slots, put};
use crate::value::SharedValue;
use bytes::Bytes;
use eos_base::RecordFault;
use eos_kept::ItemRef;
use eos_txnlog::{Partitions, TxnValue, encode_value};
use eos_wire::{Form, crc32c};
use std::alloc::{AllocError, Global};
use std::marker::Model;
use std::sync::Arc;

/// At most so many of either are kept, and of a short log so many: powers of two.
const MOST: u64 = 16384;

const FEW: u64 = 64;

/// What a record says, as `Content` says it, with shared partitions.
#[derive(Drop)]
pub(crate) enum Read {
    Unreadable(RecordFault),
    Other,
    Of(Bytes, Option<SharedValue>),
}

/// A key that was read.
#[derive(Drop)]
struct KnownKey {
    key: Vec<u8>,
    id: Bytes,
}

impl Model for KnownKey {
    ghost use Rattle.std.specs.Prelude.{◌≡◌, ℕ, List, Some, Ok};
    ghost use Rattle.eos_txnlog.specs.Reading.{read_key};

    ghost Value = { List ℕ };

    ghost view = { λ k. k.id };

    ghost invariant = { λ k. read_key k.key.items ≡ Ok (Some k.id) };
}

impl KnownKey {
    fn new(alloc: Global, key: &[u8], id: &Bytes) -> Result<KnownKey, AllocError>
        requires { read_key key.now ≡ Ok (Some id.now) }
    {
        Ok(KnownKey {
            key: Vec::from_slice(alloc, key)?,
            id: id.clone()?,
        })
    }

    fn is_of(&self, key: &[u8]) -> bool
        ensures { result ≡ true → read_key key.now ≡ Ok (Some self.now) }
    {
        self.key.as_slice() == key
    }

    fn id(&self) -> Result<Bytes, AllocError>
        ensures { IfOk result (λ id. id ≡ self.now) }
    {
        self.id.clone()
    }
}

/// A text of partitions, and what it reads.
#[derive(Drop)]
struct KnownSet {
    form: Form,
    text: Vec<u8>,
    set: Arc<Partitions, Global>,
}

impl Model for KnownSet {
    ghost use Rattle.std.specs.Prelude.{List};
    ghost use Rattle.std.specs.Arc.{arc_value};
    ghost use Rattle.eos_txnlog.specs.declared.partitions.TopicPartitions.{TopicPartitions};
    ghost use Rattle.eos_table.specs.steps.Known.{IsSetText};

    ghost Value = { List TopicPartitions };

    ghost view = { λ k. arc_value k.set };

    ghost invariant = { λ k. IsSetText k.form k.text.items (arc_value k.set) };
}

impl KnownSet {
    fn new(
        alloc: Global,
        form: Form,
        text: &[u8],
        set: &Arc<Partitions, Global>,
    ) -> Result<KnownSet, AllocError>
        requires { IsSetText form text.now (arc_value set.now) }
    {
        Ok(KnownSet {
            form,
            text: Vec::from_slice(alloc, text)?,
            set: Arc::try_clone(set)?,
        })
    }

    fn is_of(&self, form: Form, text: &[u8]) -> bool
        ensures { result ≡ true → IsSetText form text.now self.now }
    {
        is_same(self.form, form) && self.text.as_slice() == text
    }

    fn set(&self) -> Result<Arc<Partitions, Global>, AllocError>
        ensures { IfOk result (λ set. arc_value set ≡ self.now) }
    {
        Ok(Arc::try_clone(&self.set)?)
    }
}

/// Where the bytes are looked for among so many slots.
fn slot_of(bytes: &[u8], slots: usize) -> usize {
    crc32c(bytes) as usize & slots.saturating_sub(1)
}

/// What was read, each at the slot of its bytes; the last one stays there.
#[derive(Drop)]
pub(crate) struct Known {
    keys: Vec<Option<KnownKey>>,
    sets: Vec<Option<KnownSet>>,
    shared: Sets,
    /// In which section values in the flexible form end, as the last one that was read anew.
    section: Section,
}

impl Known {
    /// Nothing was read yet, of so many records.
    pub fn new(alloc: Global, records: u64) -> Result<Known, AllocError> {
        let slots = if records <= FEW { FEW } else { MOST };
        Ok(Known {
            keys: empty_slots(alloc, slots)?,
            sets: empty_slots(alloc, slots)?,
            shared: Sets::new(alloc, slots)?,
            section: Section::empty(alloc)?,
        })
    }

    fn known_id(&self, key: &[u8]) -> Result<Option<Bytes>, AllocError>
        ensures { IfOk result (λ found. IfSome found (λ id. read_key key.now ≡ Ok (Some id))) }
    {
        let Some(Some(known)) = self.keys.get(slot_of(key, self.keys.len())) else {
            return Ok(None);
        };
        if !known.is_of(key) {
            return Ok(None);
        }
        Ok(Some(known.id()?))
    }

    fn keep_key(&mut self, alloc: Global, key: &[u8], id: &Bytes) -> Result<(), AllocError>
        requires { read_key key.now ≡ Ok (Some id.now) }
    {
        let known = KnownKey::new(alloc, key, id)?;
        let place = slot_of(key, self.keys.len());
        put(&mut self.keys, place, known);
        Ok(())
    }

    /// Reads a key.
    fn id_of(
        &mut self,
        alloc: Global,
        key: &[u8],
    ) -> Result<Result<Option<Bytes>, RecordFault>, AllocError>
        ensures { IfOk result (λ read. read ≡ read_key key.now) }
    {
        if let Some(id) = self.known_id(key)? {
            return Ok(Ok(Some(id)));
        }
        let read = read_id(alloc, key)?;
        if let Ok(Some(id)) = &read {
            self.keep_key(alloc, key, id)?;
        }
        Ok(read)
    }

    fn known_set(
        &self,
        form: Form,
        text: &[u8],
    ) -> Result<Option<Arc<Partitions, Global>>, AllocError>
        ensures { IfOk result (λ found. IfSome found (λ set. IsSetText form text.now (arc_value set))) }
    {
        let Some(Some(known)) = self.sets.get(slot_of(text, self.sets.len())) else {
            return Ok(None);
        };
        if !known.is_of(form, text) {
            return Ok(None);
        }
        Ok(Some(known.set()?))
    }

    fn known_value(&self, alloc: Global, value: &[u8]) -> Result<Option<SharedValue>, AllocError>
        ensures { IfOk result (λ found. IfSome found (λ state. read_value value.now ≡ Ok state)) }
    {
        let Some(Around { form, text, bare }) = fields_around(alloc, value, &self.section) else {
            return Ok(None);
        };
        match self.known_set(form, text)? {
            None => Ok(None),
            Some(set) => Ok(Some(SharedValue::new(bare, set))),
        }
    }

    fn keep_set(
        &mut self,
        alloc: Global,
        form: Form,
        text: &[u8],
        set: &Arc<Partitions, Global>,
    ) -> Result<(), AllocError>
        requires { IsSetText form text.now (arc_value set.now) }
    {
        let known = KnownSet::new(alloc, form, text, set)?;
        let place = slot_of(text, self.sets.len());
        put(&mut self.sets, place, known);
        Ok(())
    }

    /// Takes the section in which a value in the flexible form ends, where its partitions take so many bytes.
    fn keep_section(&mut self, alloc: Global, value: &[u8], len: usize) -> Result<(), AllocError> {
        let from = len.saturating_add(HEAD + TIMES).min(value.len());
        if let Some(section) = Section::of(alloc, &value[from..])? {
            self.section = section;
        }
        Ok(())
    }

    /// Keeps the partitions of a value that was read, by the text that is written for them in its form, and its section.
    fn keep_written(
        &mut self,
        alloc: Global,
        value: &[u8],
        state: &TxnValue,
        set: &Arc<Partitions, Global>,
    ) -> Result<(), AllocError>
        requires { arc_value set.now ≡ state.now.partitions }
    {
        let Some(form) = form_in(value) else {
            return Ok(());
        };
        let written = match encode_value(alloc, state, version_of(form)) {
            Ok(written) => written,
            Err(RecordFault::OutOfMemory) => return Err(AllocError),
            Err(_) => return Ok(()),
        };
        let text = set_text(form, written.as_slice());
        self.keep_section(alloc, value, text.len())?;
        self.keep_set(alloc, form, text, set)
    }

    /// A value that was read, whose partitions are kept and shared.
    fn keep_value(
        &mut self,
        alloc: Global,
        value: &[u8],
        state: TxnValue,
    ) -> Result<SharedValue, AllocError>
        ensures { IfOk result (λ kept. kept ≡ state) }
    {
        let set = self.shared.shared(&state.partitions)?;
        self.keep_written(alloc, value, &state, &set)?;
        Ok(SharedValue::new(state, set))
    }

    /// Reads a value. Where its partitions aren't known, they are kept.
    fn state_of(
        &mut self,
        alloc: Global,
        value: &[u8],
    ) -> Result<Result<SharedValue, RecordFault>, AllocError>
        ensures { IfOk result (λ read. read ≡ read_value value.now) }
    {
        if let Some(state) = self.known_value(alloc, value)? {
            return Ok(Ok(state));
        }
        match read_state(alloc, value)? {
            Ok(state) => Ok(Ok(self.keep_value(alloc, value, state)?)),
            Err(fault) => Ok(Err(fault)),
        }
    }

    fn read_of_id(
        &mut self,
        alloc: Global,
        id: Bytes,
        value: Option<&[u8]>,
    ) -> Result<Read, AllocError>
        ensures { IfOk result (λ read. content_read read ≡ content_of_value id (option_map (λ s. s.now) value.entry)) }
    {
        let Some(bytes) = value else {
            return Ok(Read::Of(id, None));
        };
        match self.state_of(alloc, bytes)? {
            Ok(state) => Ok(Read::Of(id, Some(state))),
            Err(fault) => Ok(Read::Unreadable(fault)),
        }
    }

    /// Reads a data record of the transaction log.
    pub fn read(&mut self, alloc: Global, item: &ItemRef<'_>) -> Result<Read, AllocError>
        ensures { IfOk result (λ read. content_read read ≡ content_of item.now) }
    {
        let Some(key) = item.key() else {
            return Ok(Read::Unreadable(RecordFault::Short));
        };
        match self.id_of(alloc, key)? {
            Ok(Some(id)) => self.read_of_id(alloc, id, item.value()),
            Ok(None) => Ok(Read::Other),
            Err(fault) => Ok(Read::Unreadable(fault)),
        }
    }
}
