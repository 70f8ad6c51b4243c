//! What the checker is told: the applications, and where each partition ends. A `Spec` can't hold
//! what its tests refuse.

ghost use Rattle.std.specs.Prelude.{◌≡◌};
ghost use Rattle.eos_evidence.specs.SpecFields.{accepted, IsAccepted};
ghost use Rattle.eos_evidence.specs.steps.AcceptedMembers.{Accepts};

use crate::application::{App, Apps};
use crate::ends::{End, Ends, are_ends_legal, put_in_order};
use crate::fault::SpecFault;
use crate::legal_applications::are_apps_legal;
use eos_base::Listed;
use std::alloc::Global;
use std::marker::Model;

/// The greatest number of partitions of evidence.
pub const MAX_PARTITIONS: usize = 4096;

/// The greatest number of applications of evidence.
pub const MAX_APPS: usize = 256;

/// The applications, in the order given, and the end of each partition, by topic bytes, then number.
#[derive(Drop)]
pub struct Spec {
    apps: Apps,
    ends: Ends,
}

impl Model for Spec {
    ghost use Rattle.eos_evidence.specs.SpecFields.{SpecFields, IsAccepted};

    ghost Value = { SpecFields };

    ghost view = { λ s. record { apps = s.apps; ends = s.ends } };

    ghost invariant = { λ s. IsAccepted (record { apps = s.apps; ends = s.ends }) };
}

impl Spec {
    /// Tests the parts and puts the ends in order. `Field` where a topic's name is illegal, internal or
    /// stands twice in the two lists of an application together, where two applications have one group
    /// or one output topic, where a partition's name or end is illegal, or where a partition stands
    /// twice; `Limit` where there are more than 256 applications or 4,096 partitions. It is never
    /// refused for want of memory: where there is none for a quick test a slower one decides.
    pub fn new(alloc: Global, apps: Apps, ends: Ends) -> Result<Spec, SpecFault>
        ensures { result ≡ accepted (record { apps = apps; ends = ends }) }
    {
        let mut ends = ends.into_vec();
        match accept(alloc, apps.as_slice(), &mut ends) {
            Ok(()) => Ok(Spec {
                apps,
                ends: Listed::new(ends),
            }),
            Err(fault) => Err(fault),
        }
    }

    /// The applications, in the order given.
    pub fn apps(&self) -> &Apps
        ensures value { result.now ≡ self.now.apps }
        ensures accepted { IsAccepted self.now }
    {
        &self.apps
    }

    /// The end of each partition, by topic bytes, then number.
    pub fn ends(&self) -> &Ends
        ensures value { result.now ≡ self.now.ends }
        ensures accepted { IsAccepted self.now }
    {
        &self.ends
    }
}

/// Tests the parts, and puts the ends in order where no test refuses them.
fn accept(alloc: Global, apps: &[App], ends: &mut Vec<End>) -> Result<(), SpecFault>
    ensures { Accepts result (record { apps = apps.now; ends = ends.old.items }) (record { apps = apps.now; ends = ends.new.items }) }
{
    if !are_apps_legal(alloc, apps) {
        return Err(SpecFault::Field);
    }
    if !are_ends_legal(ends.as_slice()) {
        return Err(SpecFault::Field);
    }
    if !put_in_order(ends) {
        return Err(SpecFault::Field);
    }
    if apps.len() > MAX_APPS {
        return Err(SpecFault::Limit);
    }
    if ends.len() > MAX_PARTITIONS {
        return Err(SpecFault::Limit);
    }
    Ok(())
}
