//! Reading a folder of evidence: its manifest, and the segments of the partitions that the manifest names.

ghost use Rattle.std.specs.Prelude.{◌≡◌, ℕ, List, map, Ok, Err, IfOk, IfErr, OnOk, string_bytes};
ghost use Rattle.eos_disk.specs.Entries.{HasBytes};
ghost use Rattle.eos_evidence.specs.Evidence.{IsEvidence, with_segment};
ghost use Rattle.eos_evidence.specs.Manifest.{spec_said_by};
ghost use Rattle.eos_disk.specs.Paths.{manifest_path};
ghost use Rattle.eos_disk.specs.Refusals.{RefusesManifest};
ghost use Rattle.eos_disk.specs.Shapes.{IsShapeAt};
ghost use Rattle.eos_disk.specs.Stopped.{IsShapeTo};
ghost use Rattle.eos_disk.specs.steps.Listing.{AreNamed, IsCut, partitions_with};
ghost use Rattle.eos_disk.specs.declared.folder.FolderFault.{FolderFault as AFault};
ghost use Rattle.eos_disk.specs.declared.folder.FolderFault.TheVariants.{OutOfMemory};

use crate::Disk;
use crate::cause::Cause;
use crate::files::read_file;
use crate::listing::Segments;
use crate::names::Form;
use crate::paths::manifest_path;
use crate::watch::Watch;
use eos_evidence::{Evidence, EvidenceBuilder, Segment, Spec, SpecFault, parse_spec};
use eos_manifest::{SpecCause, explain_spec};
use std::alloc::{AllocError, AllocFailed, Global};

/// Why a folder is no evidence. Of several reasons it is the first: those of the manifest, then those of the
/// partitions in order, each with its segments by base. Want of memory may come before any of them.
#[derive(Drop)]
pub enum FolderFault {
    /// This file or folder can't be read.
    CannotRead(String, Cause),
    /// The manifest is refused.
    Manifest(SpecFault, Cause),
    /// A file is larger than a segment may be, or there are more segments than evidence may have.
    Limit(Cause),
    /// The fold in the file of this path is refused by this name.
    Fold(String, &'static str, Cause),
    /// A growth of memory was refused.
    OutOfMemory,
}

impl From<AllocError> for FolderFault {
    ghost from_gives = { λ _ e. e ≡ OutOfMemory };

    fn from(_e: AllocError) -> FolderFault {
        FolderFault::OutOfMemory
    }
}

impl<T: Drop> From<AllocFailed<T>> for FolderFault {
    ghost from_gives = { λ _ e. e ≡ OutOfMemory };

    fn from(_e: AllocFailed<T>) -> FolderFault {
        FolderFault::OutOfMemory
    }
}

/// Which evidence a folder has, before its segments are read.
#[derive(Drop)]
pub struct Shape {
    /// The evidence with the names of its segments, which have no bytes.
    pub evidence: Evidence,
    /// In which form each of these stands in the folder, by its number.
    pub forms: Vec<Form>,
    /// Why no more segments than these are listed, if that was refused. What refuses one of these comes before it.
    pub listed: Result<(), FolderFault>,
}

/// What a folder lists.
#[derive(Drop)]
struct Listing {
    spec: Spec,
    segments: Segments,
}

/// Reads which evidence a folder has: its manifest, and for each partition of it the names of the segments in the folder
/// `TOPIC-N`, each with the form in which it stands there. A partition without a folder has no segments. No segment is read.
pub fn read_shape<D: Disk, W: Watch>(
    alloc: Global,
    disk: &D,
    folder: &str,
    watch: &W,
) -> Result<Shape, FolderFault>
    ensures all { IfOk result (λ shape. shape.listed ≡ Ok tt → IsShapeAt (D.holds disk.now) folder.now shape.evidence shape.forms.items) }
    ensures front { IfOk result (λ shape. (why : AFault) → shape.listed ≡ Err why → IsShapeTo (D.holds disk.now) folder.now shape.evidence shape.forms.items why) }
    ensures refused { IfErr result (RefusesManifest (D.holds disk.now) (manifest_path folder.now)) }
{
    let mut listed = Ok(());
    match shape_of(alloc, disk, folder, watch, &mut listed) {
        Ok((evidence, forms)) => Ok(Shape {
            evidence,
            forms,
            listed,
        }),
        Err(fault) => Err(fault),
    }
}

fn shape_of<D: Disk, W: Watch>(
    alloc: Global,
    disk: &D,
    folder: &str,
    watch: &W,
    listed: &mut Result<(), FolderFault>,
) -> Result<(Evidence, Vec<Form>), FolderFault>
    ensures all { IfOk result (λ shape. listed.new ≡ Ok tt → IsShapeAt (D.holds disk.now) folder.now shape.0 shape.1.items) }
    ensures front { IfOk result (λ shape. (why : AFault) → listed.new ≡ Err why → IsShapeTo (D.holds disk.now) folder.now shape.0 shape.1.items why) }
    ensures refused { IfErr result (RefusesManifest (D.holds disk.now) (manifest_path folder.now)) }
{
    let Listing { spec, segments } = list_folder(alloc, disk, folder, watch, listed)?;
    let Segments { names, forms } = segments;
    let evidence = evidence_of(alloc, spec, names)?;
    Ok((evidence, forms))
}

/// Lists a folder, and why these aren't all of its segments, if that was refused.
fn list_folder<D: Disk, W: Watch>(
    alloc: Global,
    disk: &D,
    folder: &str,
    watch: &W,
    listed: &mut Result<(), FolderFault>,
) -> Result<Listing, FolderFault>
    ensures says { IfOk result (λ listing. (text : List ℕ) × HasBytes (D.holds disk.now (manifest_path folder.now)) text × (spec_said_by text ≡ Ok listing.spec)) }
    ensures named { IfOk result (λ listing. listed.new ≡ Ok tt → AreNamed (D.holds disk.now) folder.now listing.spec.ends listing.segments.names.items listing.segments.forms.items) }
    ensures cut { IfOk result (λ listing. (why : AFault) → listed.new ≡ Err why
        → IsCut (D.holds disk.now) folder.now listing.spec.ends listing.segments.names.items listing.segments.forms.items why) }
    ensures refused { IfErr result (RefusesManifest (D.holds disk.now) (manifest_path folder.now)) }
{
    let spec = read_manifest(alloc, disk, manifest_path(alloc, folder)?)?;
    let mut segments = Segments::new(alloc);
    *listed = segments.add_all(alloc, disk, folder, spec.ends().as_slice());
    watch.found(segments.names.len() as u64);
    Ok(Listing { spec, segments })
}

/// Reads the manifest in the file of this path.
pub fn read_manifest<D: Disk>(alloc: Global, disk: &D, path: String) -> Result<Spec, FolderFault>
    ensures says { IfOk result (λ spec. (text : List ℕ) × HasBytes (D.holds disk.now (string_bytes path)) text × (spec_said_by text ≡ Ok spec)) }
    ensures err { IfErr result (RefusesManifest (D.holds disk.now) (string_bytes path)) }
{
    let named = String::from_str(alloc, path.as_str())?;
    let manifest = read_file(alloc, disk, path)?;
    match parse_spec(alloc, manifest.as_slice()) {
        Ok(spec) => Ok(spec),
        Err(SpecFault::OutOfMemory) => Err(FolderFault::OutOfMemory),
        Err(fault) => {
            let cause = cause_of_refusal(alloc, named.as_str(), manifest.as_slice(), fault);
            Err(FolderFault::Manifest(fault, cause))
        }
    }
}

/// The file, the line and the column, as compilers tell them, and what is wrong there.
fn cause_of_refusal(alloc: Global, path: &str, manifest: &[u8], fault: SpecFault) -> Cause {
    match explain_spec(alloc, manifest, fault) {
        Some(cause) => match told_at(alloc, path, &cause) {
            Ok(words) => Cause::Told(words),
            Err(_) => Cause::Unknown,
        },
        None => Cause::Unknown,
    }
}

fn told_at(alloc: Global, path: &str, cause: &SpecCause) -> Result<String, AllocError> {
    let (line, column) = (cause.line, cause.column);
    let text = cause.text.as_str();
    format!(in alloc; "{path}:{line}:{column}: {text}")
}

/// The evidence of the segments in order.
fn evidence_of(alloc: Global, spec: Spec, segments: Vec<Segment>) -> Result<Evidence, AllocError>
    ensures spec { IfOk result (λ evidence. evidence.spec ≡ spec) }
    ensures partitions { IfOk result (λ evidence. evidence.partitions ≡ partitions_with segments.items spec.ends) }
    ensures evidence { IfOk result IsEvidence }
{
    let mut builder = EvidenceBuilder::new(alloc, spec)?;
    for segment in segments {
        add(&mut builder, segment)?;
    }
    Ok(builder.finish())
}

/// Adds a segment of a listing: one of a partition of the manifest, of another base than those before it, and no more than evidence may
/// have. That a builder takes each of these isn't proved: a refusal counts as want of memory.
fn add(builder: &mut EvidenceBuilder, segment: Segment) -> Result<(), AllocError>
    ensures spec { OnOk result (builder.new.spec ≡ builder.old.spec) }
    ensures partitions { OnOk result (builder.new.partitions ≡ map (with_segment segment) builder.old.partitions) }
{
    match builder.add(segment) {
        Ok(()) => Ok(()),
        Err(_) => Err(AllocError),
    }
}
