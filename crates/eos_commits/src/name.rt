//! The names of the partitions, among which a lent name is looked up.

ghost use Rattle.std.specs.Prelude.{◌≡◌, ◌<◌, true, Some, map, slice_get, IfOk, IfSome, IfNone};
ghost use Rattle.eos_base.specs.Members.{Has};
ghost use Rattle.eos_fold.specs.Parts.{part_name};
ghost use Rattle.eos_commits.specs.NameTables.{plain_name, AreAscending};

use eos_base::PartitionName;
use eos_kept::Part;
use std::alloc::{AllocError, Global};
use std::marker::Model;

/// A partition's name whose topic is lent.
#[derive(Clone, Copy, PartialEq, Eq, PartialOrd, Ord)]
struct NameRef<'a> {
    topic: &'a [u8],
    partition: i32,
}

/// The names of partitions, which contracts see as a list.
#[derive(Drop)]
pub struct Names<'a> {
    names: &'a [PartitionName],
    refs: Vec<NameRef<'a>>,
}

impl<'a> Model for Names<'a> {
    ghost use Rattle.std.specs.Prelude.{◌≡◌, List, map};
    ghost use Rattle.eos_base.specs.declared.partition_name.PartitionName.{PartitionName};
    ghost use Rattle.eos_commits.specs.NameTables.{plain_name};

    ghost Value = { List PartitionName };

    ghost view = { λ n. n.names.now };

    ghost invariant = { λ n. map plain_name n.refs.items ≡ n.names.now };
}

/// Whether the name is this one. Numbers are compared first; `==` of short topics is faster than their order.
fn is_named(name: &NameRef<'_>, topic: &[u8], partition: i32) -> bool
    ensures { result ≡ true → plain_name name.now ≡ record { topic = topic.now; partition = partition } }
{
    name.partition == partition && name.topic == topic
}

/// How many partition numbers have a mark of their own.
const MARKS: usize = 16;

/// Where the last look-ups of names ended, by the number of the partition: one topic's partitions are looked for in turns. The answers
/// don't depend on it.
#[derive(Clone, Copy)]
pub struct NameMarks {
    places: [usize; MARKS],
}

impl NameMarks {
    /// Nothing was looked up yet.
    pub fn new() -> NameMarks {
        NameMarks { places: [0; MARKS] }
    }
}

/// The number of a partition's mark.
fn mark_of(partition: i32) -> usize
    ensures { result < 16 }
{
    (partition.unsigned_abs() % 16) as usize
}

/// A partition's index among the names, and its name.
#[derive(Clone, Copy)]
pub struct IndexedName<'a> {
    /// Its index.
    pub place: usize,
    pub name: &'a PartitionName,
}

/// The name of each part, in their order.
///
/// # Errors
/// Only want of memory.
pub fn names_of(alloc: Global, parts: &[Part]) -> Result<Vec<PartitionName>, AllocError>
    ensures { IfOk result (λ names. names.items ≡ map part_name parts.now) }
{
    let mut names = Vec::new(alloc);
    for part in parts {
        names.push(PartitionName {
            topic: part.topic().clone()?,
            partition: part.partition(),
        })?;
    }
    Ok(names)
}

fn refs_of<'a>(alloc: Global, names: &'a [PartitionName]) -> Result<Vec<NameRef<'a>>, AllocError>
    ensures { IfOk result (λ refs. map plain_name refs.items ≡ names.entry.now) }
{
    let mut refs = Vec::new(alloc);
    for name in names {
        refs.push(NameRef {
            topic: name.topic.as_slice(),
            partition: name.partition,
        })?;
    }
    Ok(refs)
}

impl<'a> Names<'a> {
    /// These names, in their order.
    ///
    /// # Errors
    /// Only want of memory.
    pub fn of(alloc: Global, names: &'a [PartitionName]) -> Result<Names<'a>, AllocError>
        ensures { IfOk result (λ n. n ≡ names.entry.now) }
    {
        let refs = refs_of(alloc, names)?;
        Ok(Names { names, refs })
    }

    /// The names.
    pub fn as_slice(&self) -> &'a [PartitionName]
        ensures { result.now ≡ self.now }
    {
        self.names
    }

    /// The partition of this name, by a binary search: where names ascend, there is none only where it isn't among them.
    pub fn find(&self, topic: &[u8], partition: i32) -> Option<IndexedName<'a>>
        ensures found { IfSome result (λ p. slice_get self.now p.place ≡ Some p.name.now) }
        ensures named { IfSome result (λ p. slice_get self.now p.place ≡ Some (record { topic = topic.now; partition = partition })) }
        ensures absent { IfNone result (AreAscending self.now → Has self.now (record { topic = topic.now; partition = partition }) → ⊥) }
    {
        let key = NameRef { topic, partition };
        let names = self.names;
        match self.refs.binary_search(&key) {
            Ok(place) => Some(IndexedName {
                place,
                name: &names[place],
            }),
            Err(_) => None,
        }
    }

    /// Whether the one at this index has this name.
    fn is_at(&self, place: usize, topic: &[u8], partition: i32) -> bool
        ensures { result ≡ true → slice_get self.now place ≡ Some (record { topic = topic.now; partition = partition }) }
    {
        match self.refs.get(place) {
            None => false,
            Some(name) => is_named(name, topic, partition),
        }
    }

    /// The index of this name, looked for first where the last one of its number stood: where names ascend, there is none only where
    /// it isn't among them. The marks are where the last such look-ups ended; they may be any.
    pub fn index_near(&self, marks: &mut NameMarks, topic: &[u8], partition: i32) -> Option<usize>
        ensures named { IfSome result (λ place. slice_get self.now place ≡ Some (record { topic = topic.now; partition = partition })) }
        ensures absent { IfNone result (AreAscending self.now → Has self.now (record { topic = topic.now; partition = partition }) → ⊥) }
    {
        let slot = mark_of(partition);
        let last = marks.places[slot];
        if self.is_at(last, topic, partition) {
            return Some(last);
        }
        let part = self.find(topic, partition)?;
        marks.places[slot] = part.place;
        Some(part.place)
    }
}
