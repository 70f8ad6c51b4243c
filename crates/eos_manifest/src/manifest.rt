//! Which ends a manifest gets, and what it lacks.

ghost use Rattle.std.specs.Prelude.{◌≡◌, ◌||◌, ◌&&◌, bytes_eq, None, Some, Ok, Err, IfOk, IsSorted};
ghost use Rattle.std.specs.List.{list_any, filter};
ghost use Rattle.std.specs.Option.{option_copied};
ghost use Rattle.std.specs.Ordering.{int_eq};
ghost use Rattle.eos_base.specs.PartitionNames.{name_cmp};
ghost use Rattle.eos_base.specs.declared.partition_name.PartitionName.{PartitionName};
ghost use Rattle.eos_evidence.specs.declared.fault.SpecFault.{SpecFault};
ghost use Rattle.eos_evidence.specs.SpecFields.{accepted};
ghost use Rattle.eos_evidence.specs.Topics.{is_among};
ghost use Rattle.eos_manifest.specs.Manifests.{is_judged, is_named, is_wanted, name_of, has_end, first_without, parts_for};
ghost use Rattle.eos_manifest.specs.declared.manifest.ManifestFault.TheVariants.{OutOfMemory};

use bytes::Bytes;
use eos_base::{Listed, PartitionName, holds};
use eos_evidence::{App, Apps, End, Spec, SpecFault, is_internal_topic};
use std::alloc::{AllocError, AllocFailed, Global};

/// Why there is no manifest.
#[derive(Drop)]
pub enum ManifestFault {
    /// This partition has no end.
    NoEnd(PartitionName),
    /// Its parts are refused.
    Refused(SpecFault),
    /// A growth of memory was refused.
    OutOfMemory,
}

impl From<AllocError> for ManifestFault {
    ghost from_gives = { λ _ e. e ≡ OutOfMemory };

    fn from(_e: AllocError) -> ManifestFault {
        ManifestFault::OutOfMemory
    }
}

impl<T: Drop> From<AllocFailed<T>> for ManifestFault {
    ghost from_gives = { λ _ e. e ≡ OutOfMemory };

    fn from(_e: AllocFailed<T>) -> ManifestFault {
        ManifestFault::OutOfMemory
    }
}

/// The manifest of these applications: of these ends those whose topic an application names or is one of Kafka's own two, and
/// those of the partitions that have to have an end, which stand in order.
///
/// # Errors
/// `NoEnd` for the first partition that has to have an end and has none; else `Refused` with what `Spec::new` says;
/// `OutOfMemory`.
pub fn manifest_for(
    alloc: Global,
    apps: Apps,
    required: &[PartitionName],
    ends: &[End],
) -> Result<Spec, ManifestFault>
    requires { IsSorted name_cmp required.now }
    ensures ok { IfOk result (λ spec. (first_without ends.now required.now ≡ None) × (accepted (parts_for apps required.now ends.now) ≡ Ok spec)) }
    ensures no_end { (name : PartitionName) → result ≡ Err (ManifestFault.NoEnd name) → first_without ends.now required.now ≡ Some name }
    ensures refused { (fault : SpecFault) → result ≡ Err (ManifestFault.Refused fault)
        → (first_without ends.now required.now ≡ None) × (accepted (parts_for apps required.now ends.now) ≡ Err fault) }
{
    if let Some(name) = first_without(ends, required) {
        return Err(ManifestFault::NoEnd(name.clone()?));
    }
    let wanted = wanted_ends(alloc, apps.as_slice(), required, ends)?;
    match Spec::new(alloc, apps, Listed::new(wanted)) {
        Ok(spec) => Ok(spec),
        Err(fault) => Err(ManifestFault::Refused(fault)),
    }
}

/// Whether an application names the topic, or Kafka keeps its own records in it.
pub fn is_judged(apps: &[App], topic: &[u8]) -> bool
    ensures { result ≡ is_judged apps.now topic.now }
{
    is_internal_topic(topic) || is_named(apps, topic)
}

/// Whether an application reads or writes the topic.
fn is_named(apps: &[App], topic: &[u8]) -> bool
    ensures { result ≡ is_named apps.now topic.now }
{
    apps.iter().any(|app| is_named_by(app, topic))
}

/// Whether this application reads or writes the topic.
fn is_named_by(app: &App, topic: &[u8]) -> bool
    ensures { result ≡ (is_among topic.now app.now.sources || is_among topic.now app.now.outputs) }
{
    is_one_of(topic, app.sources.as_slice()) || is_one_of(topic, app.outputs.as_slice())
}

fn is_one_of(topic: &[u8], topics: &[Bytes]) -> bool
    ensures { result ≡ is_among topic.now topics.now }
{
    topics.iter().any(|other| topic == other.as_slice())
}

/// The first of these partitions that has no end.
fn first_without<'a>(ends: &[End], names: &'a [PartitionName]) -> Option<&'a PartitionName>
    ensures { option_copied result ≡ first_without ends.now names.now }
{
    for name in names {
        if !has_end(ends, name) {
            return Some(name);
        }
    }
    None
}

/// Whether one of the ends is this partition's.
pub fn has_end(ends: &[End], name: &PartitionName) -> bool
    ensures { result ≡ has_end ends.now name.now }
{
    ends.iter().any(|end| is_of(end, name))
}

fn is_of(end: &End, name: &PartitionName) -> bool
    ensures { result ≡ (bytes_eq end.now.topic name.now.topic && int_eq end.now.partition name.now.partition) }
{
    end.topic == name.topic && end.partition == name.partition
}

/// The ends that are wanted, in their order.
fn wanted_ends(
    alloc: Global,
    apps: &[App],
    required: &[PartitionName],
    ends: &[End],
) -> Result<Vec<End>, AllocError>
    requires { IsSorted name_cmp required.now }
    ensures { IfOk result (λ wanted. wanted.items ≡ filter (is_wanted apps.now required.now) ends.now) }
{
    let mut wanted = Vec::new(alloc);
    for end in ends {
        if is_wanted(apps, required, end)? {
            wanted.push(end.clone()?)?;
        }
    }
    Ok(wanted)
}

/// Whether the partition has a topic that is judged, or has to have an end.
fn is_wanted(apps: &[App], required: &[PartitionName], end: &End) -> Result<bool, AllocError>
    requires { IsSorted name_cmp required.now }
    ensures { IfOk result (λ wanted. wanted ≡ is_wanted apps.now required.now end.now) }
{
    if is_judged(apps, end.topic.as_slice()) {
        return Ok(true);
    }
    let name = PartitionName {
        topic: end.topic.clone()?,
        partition: end.partition,
    };
    Ok(holds(required, &name))
}
