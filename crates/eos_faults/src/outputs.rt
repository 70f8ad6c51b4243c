//! A fault of the applications' outputs whose names are lent from the logs.

ghost use Rattle.std.specs.Prelude.{◌≡◌, option_map, IfOk};
ghost use Rattle.eos_faults.specs.OutputKinds.{IsOfKind};
ghost use Rattle.eos_faults.specs.steps.Plain.{fault_of, place_at};
ghost use Rattle.eos_faults.specs.steps.Taken.{named_in};

use crate::lent::{LentFault, LentPlace};
use bytes::Bytes;
use eos_base::PartitionName;
use eos_claims::{OutputFault, OutputKind, Place};
use eos_evidence::GroupId;
use eos_lineage::LineageFault;
use std::alloc::{AllocError, Global};
use std::marker::Model;

/// A fault of an application's outputs, and the group that it names. Contracts see the fault; its names are lent, so that it takes no
/// block of its own.
#[derive(Drop)]
pub struct LentOutput<'a> {
    pub(crate) group: Option<&'a GroupId>,
    pub(crate) fault: LentFault<'a>,
}

impl<'a> Model for LentOutput<'a> {
    ghost use Rattle.eos_verdict.specs.declared.lineage_fault.LineageFault.{LineageFault as AFault};
    ghost use Rattle.std.specs.Prelude.{option_map};
    ghost use Rattle.eos_faults.specs.steps.Taken.{named_in};

    ghost Value = { AFault };

    ghost view = { λ o. named_in (option_map (λ g. g.now) o.group) o.fault };
}

/// The place with a name of its own.
fn own_place(alloc: Global, place: &LentPlace<'_>) -> Result<Place, AllocError>
    ensures { IfOk result (λ p. p ≡ place_at place.now) }
{
    Ok(Place {
        partition: PartitionName {
            topic: Bytes::copy_from_slice(alloc, place.partition.topic)?,
            partition: place.partition.partition,
        },
        offset: place.offset,
    })
}

fn own_claim(alloc: Global, at: Option<LentPlace<'_>>) -> Result<Option<Place>, AllocError>
    ensures { IfOk result (λ p. p ≡ option_map place_at at.entry) }
{
    match at {
        None => Ok(None),
        Some(at) => Ok(Some(own_place(alloc, &at)?)),
    }
}

fn own_group(group: Option<&GroupId>) -> Result<Option<GroupId>, AllocError>
    ensures { IfOk result (λ g. g ≡ option_map (λ r. r.now) group.entry) }
{
    match group {
        None => Ok(None),
        Some(group) => Ok(Some(group.clone()?)),
    }
}

/// The fault with names of its own.
fn own_fault(alloc: Global, fault: &LentFault<'_>) -> Result<OutputFault, AllocError>
    ensures { IfOk result (λ f. f ≡ fault_of fault.now) }
{
    let source = own_place(alloc, &fault.source)?;
    let at = own_claim(alloc, fault.at)?;
    Ok(OutputFault {
        source,
        output: fault.output,
        kind: fault.kind,
        at,
    })
}

impl<'a> LentOutput<'a> {
    pub(crate) fn new(group: Option<&'a GroupId>, fault: LentFault<'a>) -> LentOutput<'a>
        ensures { result ≡ named_in (option_map (λ r. r.now) group.entry) fault.entry }
    {
        LentOutput { group, fault }
    }

    /// Its kind.
    pub fn kind(&self) -> OutputKind
        ensures { IsOfKind result self.now }
    {
        self.fault.kind
    }

    /// The fault with names of its own.
    ///
    /// # Errors
    /// Only want of memory.
    pub fn own(&self, alloc: Global) -> Result<LineageFault, AllocError>
        ensures { IfOk result (λ f. f ≡ self.now) }
    {
        let group = own_group(self.group)?;
        let fault = own_fault(alloc, &self.fault)?;
        Ok(LineageFault::Output { group, fault })
    }
}
