//! The copied logs: which partitions have a folder, and what is read of their segments.

ghost use Rattle.std.specs.Prelude.{◌≡◌, ◌≢◌, ◌⊎◌, ◌++◌, List, pos, true, false, IfOk, IfErr, OnOk};
ghost use Rattle.std.specs.BTreeSet.{BTreeSet};
ghost use Rattle.eos_base.specs.Members.{is_found};
ghost use Rattle.eos_base.specs.PartitionNames.{name_cmp};
ghost use Rattle.eos_base.specs.declared.partition_name.PartitionName.{PartitionName};
ghost use Rattle.eos_disk.specs.Entries.{HasBytes};
ghost use Rattle.eos_disk.specs.Paths.{file_path, path_of_end};
ghost use Rattle.eos_disk.specs.Shapes.{AreLogsAt};
ghost use Rattle.eos_disk.specs.Stopped.{RefusesLogs};
ghost use Rattle.eos_disk.specs.declared.names.Form.TheVariants.{Log};
ghost use Rattle.eos_commands.specs.Copies.{names_in, AreFoldersAt, AreListedAt, AreListedBy, is_states, path_of_name, own_name, AreRequired, IsEndOfCopy, EndsAt, IsCopied, AreEndsOfCopies};
ghost use Rattle.eos_commands.specs.InitRefusals.{RefusesBy, RefusesAt, IsFirstUnread, RefusesCopy, RefusesStates, RefusesEnd, RefusesCopies};
ghost use Rattle.eos_commands.specs.declared.init_fault.InitFault.TheVariants.{OutOfMemory};
ghost use Rattle.eos_commands.specs.steps.Names.{Gains};

use crate::init_fault::{InitFault, unlisted};
use bytes::Bytes;
use eos_base::{PartitionName, Sorted};
use eos_disk::{Disk, bases_of, read_segment_file};
use eos_evidence::{App, End};
use eos_manifest::{front_end, is_judged, listed_in, read_folder_name};
use std::alloc::{AllocError, Global};
use std::collections::BTreeSet;

/// The copied logs of a folder.
#[derive(Drop)]
pub(crate) struct Logs<'a, D> {
    pub(crate) alloc: Global,
    pub(crate) disk: &'a D,
    pub(crate) folder: &'a str,
}

impl<'a, D: Disk> Logs<'a, D> {
    /// The partitions that have a folder TOPIC-N in this one, in order.
    pub(crate) fn folders(&self) -> Result<Sorted<PartitionName>, InitFault>
        ensures ok { IfOk result (AreFoldersAt (D.holds self.now.disk.now) self.now.folder.now) }
        ensures refused { IfErr result (RefusesBy (RefusesAt (D.holds self.now.disk.now) self.now.folder.now)) }
    {
        match self.disk.list(self.alloc, self.folder) {
            Ok(listed) => Ok(Sorted::of(names_in(self.alloc, listed.as_slice())?)),
            Err(fault) => {
                let path = String::from_str(self.alloc, self.folder)?;
                Err(InitFault::Unread(unlisted::<D::File>(path, fault)))
            }
        }
    }

    /// The partitions that have to have an end: those with a folder whose topic an application names or is one of Kafka's own two,
    /// or all with a folder where there is no application, and those that a record of the transaction log lists.
    pub(crate) fn required(
        &self,
        apps: &[App],
        folders: &[PartitionName],
    ) -> Result<Sorted<PartitionName>, InitFault>
        ensures ok { IfOk result (AreRequired (D.holds self.now.disk.now) self.now.folder.now apps.now folders.now) }
        ensures refused { IfErr result (λ why. (why ≡ OutOfMemory) ⊎ RefusesStates (D.holds self.now.disk.now) self.now.folder.now apps.now folders.now why) }
    {
        let mut names = BTreeSet::new(self.alloc);
        for name in folders {
            insert_own(apps, name, &mut names)?;
            self.insert_listed(name, &mut names)?;
        }
        Ok(Sorted::of(in_a_row(self.alloc, &names)?))
    }

    /// Adds the partitions that the records of this partition list, if it is of the transaction log.
    fn insert_listed(
        &self,
        name: &PartitionName,
        names: &mut BTreeSet<PartitionName>,
    ) -> Result<(), InitFault>
        ensures ok { OnOk result ((listed : List PartitionName) × AreListedAt (is_states name.now.topic) (D.holds self.now.disk.now) (path_of_name self.now.folder.now name.now) listed × Gains names.old listed names.new) }
        ensures refused { IfErr result (λ why. (why ≡ OutOfMemory) ⊎ ((is_states name.now.topic ≡ true) × RefusesBy (RefusesCopy (D.holds self.now.disk.now) (path_of_name self.now.folder.now name.now)) why)) }
    {
        if is_states(name.topic.as_slice()) {
            return self.insert_states(name, names);
        }
        Ok(())
    }

    /// Adds the partitions that the records of this partition of the transaction log list.
    fn insert_states(
        &self,
        name: &PartitionName,
        names: &mut BTreeSet<PartitionName>,
    ) -> Result<(), InitFault>
        ensures ok { OnOk result ((listed : List PartitionName) × AreListedAt true (D.holds self.now.disk.now) (path_of_name self.now.folder.now name.now) listed × Gains names.old listed names.new) }
        ensures refused { IfErr result (RefusesBy (RefusesCopy (D.holds self.now.disk.now) (path_of_name self.now.folder.now name.now))) }
    {
        let end = as_end(name)?;
        let bases = self.bases(&end)?;
        self.insert_segments(&end, bases.as_slice(), names)
    }

    /// Adds the partitions that the records of these segments list.
    fn insert_segments(
        &self,
        end: &End,
        bases: &[i64],
        names: &mut BTreeSet<PartitionName>,
    ) -> Result<(), InitFault>
        ensures ok { OnOk result ((listed : List PartitionName) × AreListedBy (D.holds self.now.disk.now) (path_of_end self.now.folder.now end.now) bases.now listed × Gains names.old listed names.new) }
        ensures refused { IfErr result (RefusesBy (IsFirstUnread (D.holds self.now.disk.now) (path_of_end self.now.folder.now end.now) bases.now)) }
    {
        for base in bases {
            let bytes = self.segment(end, *base)?;
            insert_all(names, listed_in(self.alloc, &bytes)?)?;
        }
        Ok(())
    }

    /// The ends of these partitions that their copied logs have.
    pub(crate) fn ends(
        &self,
        names: &[PartitionName],
        folders: &Sorted<PartitionName>,
    ) -> Result<Vec<End>, InitFault>
        ensures ok { IfOk result (λ ends. AreEndsOfCopies (D.holds self.now.disk.now) self.now.folder.now folders.now names.now ends.items) }
        ensures refused { IfErr result (λ why. (why ≡ OutOfMemory) ⊎ RefusesCopies (D.holds self.now.disk.now) self.now.folder.now folders.now names.now why) }
    {
        let mut ends = Vec::new(self.alloc);
        for name in names {
            self.push_end(name, folders, &mut ends)?;
        }
        Ok(ends)
    }

    /// Puts the end of a partition's copied log behind these, if it has a folder.
    fn push_end(
        &self,
        name: &PartitionName,
        folders: &Sorted<PartitionName>,
        ends: &mut Vec<End>,
    ) -> Result<(), InitFault>
        ensures ok { OnOk result ((here : List End) × IsCopied (is_found name_cmp folders.now name.now) (D.holds self.now.disk.now) self.now.folder.now name.now here × (ends.new.items ≡ ends.old.items ++ here)) }
        ensures refused { IfErr result (λ why. (why ≡ OutOfMemory) ⊎ ((is_found name_cmp folders.now name.now ≡ true) × RefusesEnd (D.holds self.now.disk.now) (path_of_name self.now.folder.now name.now) why)) }
    {
        if !folders.holds(name) {
            return Ok(());
        }
        ends.push(self.end_of_copy(name)?)?;
        Ok(())
    }

    /// Where the front of a partition's copied segments ends.
    fn end_of_copy(&self, name: &PartitionName) -> Result<End, InitFault>
        ensures ok { IfOk result (IsEndOfCopy (D.holds self.now.disk.now) self.now.folder.now name.now) }
        ensures refused { IfErr result (RefusesEnd (D.holds self.now.disk.now) (path_of_name self.now.folder.now name.now)) }
    {
        let mut end = as_end(name)?;
        let bases = self.bases(&end)?;
        let front = self.end_of_front(&end, bases.as_slice());
        drop(bases);
        let Ok(offset) = i64::try_from(front?) else {
            return Err(InitFault::Limit);
        };
        end.end = offset;
        Ok(end)
    }

    /// Where the front of these segments of a partition ends, which begins at 0.
    fn end_of_front(&self, end: &End, bases: &[i64]) -> Result<u64, InitFault>
        ensures ok { IfOk result (EndsAt (D.holds self.now.disk.now) (path_of_end self.now.folder.now end.now) 0 bases.now) }
        ensures refused { IfErr result (RefusesBy (IsFirstUnread (D.holds self.now.disk.now) (path_of_end self.now.folder.now end.now) bases.now)) }
    {
        let mut next = 0u64;
        for base in bases {
            if !is_at(*base, next) {
                return Ok(next);
            }
            let bytes = self.segment(end, *base)?;
            let front = front_end(self.alloc, &bytes, next);
            drop(bytes);
            let (after, whole) = front?;
            if !whole {
                return Ok(after);
            }
            next = after;
        }
        Ok(next)
    }

    /// The base offsets of a partition's segments, in order.
    pub(crate) fn bases(&self, end: &End) -> Result<Vec<i64>, InitFault>
        ensures ok { IfOk result (λ bases. AreLogsAt (D.holds self.now.disk.now) (path_of_end self.now.folder.now end.now) bases.items) }
        ensures refused { IfErr result (RefusesBy (RefusesLogs (D.holds self.now.disk.now) (path_of_end self.now.folder.now end.now))) }
    {
        Ok(bases_of(self.alloc, self.disk, self.folder, end)?)
    }

    /// The bytes of a partition's segment.
    pub(crate) fn segment(&self, end: &End, base: i64) -> Result<Bytes, InitFault>
        ensures ok { IfOk result (HasBytes (D.holds self.now.disk.now (file_path (path_of_end self.now.folder.now end.now) base Log))) }
        ensures refused { IfErr result (RefusesBy (RefusesAt (D.holds self.now.disk.now) (file_path (path_of_end self.now.folder.now end.now) base Log))) }
    {
        Ok(read_segment_file(self.alloc, self.disk, self.folder, end, base)?)
    }
}

/// Whether the topic is that of the transaction log.
fn is_states(topic: &[u8]) -> bool
    ensures { result ≡ is_states topic.now }
{
    topic == b"__transaction_state".as_slice()
}

/// Whether a segment of this name begins at an offset.
fn is_at(base: i64, next: u64) -> bool
    ensures yes { result ≡ true → base ≡ pos next }
    ensures no { result ≡ false → base ≢ pos next }
{
    base >= 0 && base.unsigned_abs() == next
}

/// The partitions whose folders have these names.
fn names_in(alloc: Global, listed: &[Bytes]) -> Result<Vec<PartitionName>, AllocError>
    ensures { IfOk result (λ names. names.items ≡ names_in listed.now) }
{
    let mut names = Vec::new(alloc);
    for name in listed {
        if let Some((topic, partition)) = read_folder_name(name.as_slice()) {
            let topic = Bytes::copy_from_slice(alloc, topic)?;
            names.push(PartitionName { topic, partition })?;
        }
    }
    Ok(names)
}

/// Adds a partition that has a folder, if its topic is judged or there is no application.
fn insert_own(
    apps: &[App],
    name: &PartitionName,
    names: &mut BTreeSet<PartitionName>,
) -> Result<(), AllocError>
    ensures { OnOk result (Gains names.old (own_name apps.now name.now) names.new) }
{
    if apps.is_empty() || is_judged(apps, name.topic.as_slice()) {
        names.insert(name.clone()?)?;
    }
    Ok(())
}

fn insert_all(
    names: &mut BTreeSet<PartitionName>,
    more: Vec<PartitionName>,
) -> Result<(), AllocError>
    ensures { OnOk result (Gains names.old more.items names.new) }
{
    for name in more {
        names.insert(name)?;
    }
    Ok(())
}

fn in_a_row(
    alloc: Global,
    names: &BTreeSet<PartitionName>,
) -> Result<Vec<PartitionName>, AllocError>
    ensures { IfOk result (λ row. row.items ≡ names.now.keys) }
{
    let mut row = Vec::new(alloc);
    for name in names {
        row.push(name.clone()?)?;
    }
    Ok(row)
}

/// A partition of which no end is known yet.
fn as_end(name: &PartitionName) -> Result<End, AllocError>
    ensures topic { IfOk result (λ end. end.topic ≡ name.now.topic) }
    ensures partition { IfOk result (λ end. end.partition ≡ name.now.partition) }
{
    Ok(End {
        topic: name.topic.clone()?,
        partition: name.partition,
        end: 0,
    })
}
