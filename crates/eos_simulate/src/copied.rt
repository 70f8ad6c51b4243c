//! What a collector brings: the files that were copied and the ends that were read, and what a mistake makes of them.

ghost use Rattle.std.specs.Prelude.{◌≡◌, ℕ, List, ◌++◌, ◌∷◌, [], flat_map, IfOk, OnOk};
ghost use Rattle.eos_evidence.specs.Evidence.{segments_of};
ghost use Rattle.eos_simulate.specs.CopiedFiles.{is_file_of, is_end_of};
ghost use Rattle.eos_simulate.specs.Collecting.{own_file, own_end, file_after, end_after, files_after, after_mistake, turns, meets_file, meets_end, meets_a_file, meets_an_end, can_make, copied_from, all_bytes};

use crate::bytes_changed::{rewritten, with_byte, without_last};
use crate::cleaning::cleaned_files;
use crate::mistake::{Mistake, Turned, What};
use bytes::Bytes;
use eos_base::Listed;
use eos_evidence::{End, Evidence, Partition, Segment};
use std::alloc::{AllocError, Global};

/// The files that were copied, and the ends that were read.
#[derive(Drop)]
pub(crate) struct Copied {
    pub(crate) ends: Listed<End>,
    pub(crate) files: Listed<Segment>,
}

impl Copied {
    /// All files and ends of an evidence.
    pub(crate) fn of(alloc: Global, evidence: &Evidence) -> Result<Copied, AllocError>
        ensures { IfOk result (λ copied. copied ≡ copied_from evidence.now) }
    {
        Ok(Copied {
            ends: evidence.spec().ends().clone()?,
            files: files_of(alloc, evidence.partitions())?,
        })
    }

    /// Whether there is something in which this mistake can be made.
    pub(crate) fn can_make(&self, mistake: &Mistake<'_>) -> bool
        ensures { result ≡ can_make mistake.now self.now }
    {
        meets_a_file(mistake, self.files.as_slice()) || meets_an_end(mistake, self.ends.as_slice())
    }

    /// What this mistake makes of it.
    pub(crate) fn after(&self, alloc: Global, mistake: &Mistake<'_>) -> Result<Copied, AllocError>
        ensures { IfOk result (λ copied. copied ≡ after_mistake mistake.now self.now) }
    {
        Ok(Copied {
            ends: ends_after(alloc, mistake, self.ends.as_slice())?,
            files: files_after(alloc, mistake, self.files.as_slice())?,
        })
    }
}

fn files_of(alloc: Global, partitions: &[Partition]) -> Result<Listed<Segment>, AllocError>
    ensures { IfOk result (λ files. files ≡ segments_of partitions.now) }
{
    let mut files = Listed::new(Vec::new(alloc));
    for partition in partitions {
        push_files(&mut files, partition.segments.as_slice())?;
    }
    Ok(files)
}

fn push_files(files: &mut Listed<Segment>, segments: &[Segment]) -> Result<(), AllocError>
    ensures { OnOk result (files.new ≡ files.old ++ segments.now) }
{
    for segment in segments {
        push_copy(files, segment)?;
    }
    Ok(())
}

/// Adds an equal file.
pub(crate) fn push_copy(files: &mut Listed<Segment>, file: &Segment) -> Result<(), AllocError>
    ensures { OnOk result (files.new ≡ files.old ++ file.now ∷ []) }
{
    files.push(file.copy()?)
}

/// Adds the file with these bytes, where they could be made.
pub(crate) fn push_with(
    files: &mut Listed<Segment>,
    file: &Segment,
    bytes: Result<Bytes, AllocError>,
) -> Result<(), AllocError>
    ensures { (bs : List ℕ) → IfOk bytes (λ b. b ≡ bs) → OnOk result (files.new ≡ files.old ++ record file.now { bytes = bs } ∷ []) }
{
    let bytes = bytes?;
    files.push(Segment {
        topic: file.topic.clone()?,
        partition: file.partition,
        base: file.base,
        bytes,
    })
}

// ---- where it is made

pub(crate) fn is_file_of(mistake: &Mistake<'_>, file: &Segment) -> bool
    ensures { result ≡ is_file_of mistake.now file.now }
{
    file.topic.as_slice() == mistake.topic.as_bytes() && file.partition == mistake.partition
}

fn is_end_of(mistake: &Mistake<'_>, end: &End) -> bool
    ensures { result ≡ is_end_of mistake.now end.now }
{
    end.topic.as_slice() == mistake.topic.as_bytes() && end.partition == mistake.partition
}

fn turns(turned: Turned, file: &Segment) -> bool
    ensures { result ≡ turns turned file.now }
{
    file.base == turned.base
        && turned.at < file.bytes.len()
        && file.bytes.as_slice()[turned.at] != turned.value
}

fn meets_file(file: &Segment, what: What) -> bool
    ensures { result ≡ meets_file file.now what }
{
    match what {
        What::LostSegment(base) => file.base == base,
        What::CutSegment(base) => file.base == base,
        What::RenamedSegment(base, name) => file.base == base && name != base,
        What::TurnedByte(turned) => turns(turned, file),
        What::RewrittenByte(turned) => turns(turned, file),
        What::TwoReplicas => file.base != 0,
        What::Compacted => file.base != 0,
        What::WrongEnd(_) | What::Forgotten | What::Doubled(_) => false,
    }
}

fn meets_end(end: &End, what: What) -> bool
    ensures { result ≡ meets_end end.now what }
{
    match what {
        What::WrongEnd(other) => end.end != other,
        What::Forgotten | What::Doubled(_) => true,
        What::LostSegment(_)
        | What::CutSegment(_)
        | What::RenamedSegment(_, _)
        | What::TurnedByte(_)
        | What::RewrittenByte(_)
        | What::TwoReplicas
        | What::Compacted => false,
    }
}

#[tactic(auto, using(crate::proofs::LookedFor::looked_at, crate::proofs::LookedFor::none_found))]
fn meets_a_file(mistake: &Mistake<'_>, files: &[Segment]) -> bool
    ensures { result ≡ meets_a_file mistake.now files.now }
{
    for file in files {
        if is_file_of(mistake, file) && meets_file(file, mistake.what) {
            return true;
        }
    }
    false
}

#[tactic(auto, using(crate::proofs::LookedFor::looked_at, crate::proofs::LookedFor::none_found))]
fn meets_an_end(mistake: &Mistake<'_>, ends: &[End]) -> bool
    ensures { result ≡ meets_an_end mistake.now ends.now }
{
    for end in ends {
        if is_end_of(mistake, end) && meets_end(end, mistake.what) {
            return true;
        }
    }
    false
}

// ---- the ends

fn ends_after(alloc: Global, mistake: &Mistake<'_>, ends: &[End]) -> Result<Listed<End>, AllocError>
    ensures { IfOk result (λ all. all ≡ flat_map (end_after mistake.now) ends.now) }
{
    let mut all = Listed::new(Vec::new(alloc));
    for end in ends {
        push_end(&mut all, mistake, end)?;
    }
    Ok(all)
}

fn push_end(all: &mut Listed<End>, mistake: &Mistake<'_>, end: &End) -> Result<(), AllocError>
    ensures { OnOk result (all.new ≡ all.old ++ end_after mistake.now end.now) }
{
    if is_end_of(mistake, end) {
        return push_own_end(all, end, mistake.what);
    }
    all.push(end.clone()?)
}

fn push_own_end(all: &mut Listed<End>, end: &End, what: What) -> Result<(), AllocError>
    ensures { OnOk result (all.new ≡ all.old ++ own_end end.now what) }
{
    match what {
        What::LostSegment(_)
        | What::CutSegment(_)
        | What::RenamedSegment(_, _)
        | What::TurnedByte(_)
        | What::RewrittenByte(_)
        | What::TwoReplicas
        | What::Compacted => all.push(end.clone()?),
        What::WrongEnd(other) => all.push(End {
            topic: end.topic.clone()?,
            partition: end.partition,
            end: other,
        }),
        What::Forgotten => Ok(()),
        What::Doubled(number) => {
            all.push(end.clone()?)?;
            all.push(End {
                topic: end.topic.clone()?,
                partition: number,
                end: end.end,
            })
        }
    }
}

// ---- the files

fn files_after(
    alloc: Global,
    mistake: &Mistake<'_>,
    files: &[Segment],
) -> Result<Listed<Segment>, AllocError>
    ensures { IfOk result (λ all. all ≡ files_after mistake.now files.now mistake.now.what) }
{
    match mistake.what {
        What::Compacted => cleaned_files(alloc, mistake, files),
        _ => each_after(alloc, mistake, files),
    }
}

fn each_after(
    alloc: Global,
    mistake: &Mistake<'_>,
    files: &[Segment],
) -> Result<Listed<Segment>, AllocError>
    ensures { IfOk result (λ all. all ≡ flat_map (file_after mistake.now files.now) files.now) }
{
    let mut all = Listed::new(Vec::new(alloc));
    for file in files {
        push_file(alloc, &mut all, mistake, files, file)?;
    }
    Ok(all)
}

fn push_file(
    alloc: Global,
    all: &mut Listed<Segment>,
    mistake: &Mistake<'_>,
    files: &[Segment],
    file: &Segment,
) -> Result<(), AllocError>
    ensures { OnOk result (all.new ≡ all.old ++ file_after mistake.now files.now file.now) }
{
    if is_file_of(mistake, file) {
        return push_own(alloc, all, mistake, files, file);
    }
    push_copy(all, file)
}

/// Adds what comes of a file of the partition.
fn push_own(
    alloc: Global,
    all: &mut Listed<Segment>,
    mistake: &Mistake<'_>,
    files: &[Segment],
    file: &Segment,
) -> Result<(), AllocError>
    ensures { OnOk result (all.new ≡ all.old ++ own_file mistake.now files.now file.now mistake.now.what) }
{
    match mistake.what {
        What::LostSegment(base) if file.base == base => Ok(()),
        What::CutSegment(base) if file.base == base => {
            push_with(all, file, without_last(&file.bytes))
        }
        What::RenamedSegment(base, name) if file.base == base => push_renamed(all, file, name),
        What::TurnedByte(turned) if file.base == turned.base => {
            push_with(all, file, with_byte(alloc, &file.bytes, turned))
        }
        What::RewrittenByte(turned) if file.base == turned.base => {
            push_with(all, file, rewritten(alloc, &file.bytes, turned))
        }
        What::TwoReplicas if file.base == 0 => {
            push_with(all, file, all_bytes(alloc, mistake, files))
        }
        What::Forgotten => Ok(()),
        What::Doubled(number) => push_twice(all, file, number),
        _ => push_copy(all, file),
    }
}

fn push_twice(all: &mut Listed<Segment>, file: &Segment, number: i32) -> Result<(), AllocError>
    ensures { OnOk result (all.new ≡ all.old ++ file.now ∷ record file.now { partition = number } ∷ []) }
{
    push_copy(all, file)?;
    let mut other = file.copy()?;
    other.partition = number;
    all.push(other)?;
    Ok(())
}

fn push_renamed(all: &mut Listed<Segment>, file: &Segment, base: i64) -> Result<(), AllocError>
    ensures { OnOk result (all.new ≡ all.old ++ record file.now { base = base } ∷ []) }
{
    let mut renamed = file.copy()?;
    renamed.base = base;
    all.push(renamed)
}

/// The bytes of all files of the partition, one after the other.
fn all_bytes(alloc: Global, mistake: &Mistake<'_>, files: &[Segment]) -> Result<Bytes, AllocError>
    ensures { IfOk result (λ bytes. bytes ≡ all_bytes mistake.now files.now) }
{
    let mut all = Vec::new(alloc);
    for file in files {
        if is_file_of(mistake, file) {
            all.extend_from_slice(file.bytes.as_slice())?;
        }
    }
    Ok(Bytes::from_vec(all)?)
}
