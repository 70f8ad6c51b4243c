//! A partition's log as the rest of the checker sees it, however it was cut into segments, without their bytes.

ghost use Rattle.std.specs.Prelude.{◌≡◌, IfOk};
ghost use Rattle.eos_claims.specs.Headers.{claim_of};
ghost use Rattle.eos_fold.specs.Parts.{Rises, Ascends};
ghost use Rattle.eos_reading.specs.Outputs.{kept_output, claim_kept};
ghost use Rattle.eos_reading.specs.Records.{wanted_record, ReadsBack};
ghost use Rattle.eos_kept.specs.steps.Made.{AllKept, IsMade};
ghost use Rattle.eos_kept.specs.steps.Fronts.{AreEach, IsPartFrom};
ghost use Rattle.eos_kept.specs.Records.{records_in, ReadBack, SaysClaim, SayClaims};
ghost use Rattle.eos_reading.specs.declared.wanted.Wanted.TheVariants.{Presence, Claims, Texts};

use crate::apart::apart;
use crate::close::closes_of;
use crate::items::Items;
use crate::kept_whole::{least_fault, of_all};
use crate::records::Records;
use crate::{Front, Kept, Sizes};
use bytes::Bytes;
use eos_base::Listed;
use eos_batch::Marker;
use eos_evidence::End;
use eos_fold::Close;
use eos_reading::{EpochEntry, KeptOutputs, KeptTexts};
use eos_touch::PartitionFault;
use std::alloc::{AllocError, Global};
use std::marker::Model;

/// What is wanted of a partition's log.
#[derive(Drop)]
pub struct Part {
    end: End,
    items: Items,
    closes: Vec<Close>,
    markers: Vec<Marker>,
}

impl Model for Part {
    ghost use Rattle.std.specs.Prelude.{[]};
    ghost use Rattle.eos_fold.specs.Parts.{PartLog, Rises, Ascends};

    ghost Value = { PartLog };

    ghost view = { λ p. record { topic = p.end.topic; number = p.end.partition; end = p.end.end; segments = []; items = p.items; closes = p.closes.items; markers = p.markers.items } };

    ghost invariant = { λ p. Rises p.items × Ascends p.closes.items };
}

/// What is wanted of a partition's log, and what is said of its bytes, which are gone.
#[derive(Drop)]
pub struct Told {
    pub part: Part,
    /// The least fault of the bytes.
    pub fault: Option<PartitionFault>,
    /// The number of batches of the front of the segments, control batches too.
    pub batches: u64,
    /// How large the segments are, whatever of them is of the front.
    pub sizes: Sizes,
    /// The leader epochs of the front's batches, each with the offset at which it begins.
    pub epochs: Listed<EpochEntry>,
}

/// The log of a partition that is declared to end here, of a front, what is kept of its records, and how large its segments are.
fn made(
    alloc: Global,
    end: End,
    front: Option<Front>,
    mut kept: Records,
    sizes: Sizes,
) -> Result<Told, AllocError>
    requires each { AreEach front (records_in kept) }
    requires claims { ReadBack kept }
    requires said { SayClaims (records_in kept) }
    ensures { IfOk result (IsPartFrom end front kept sizes) }
{
    let front = of_all(alloc, end.topic.as_slice(), front, &mut kept);
    let fault = least_fault(&front, end.topic.clone()?, &end);
    let Front {
        batches,
        markers,
        epochs,
        run,
        ..
    } = front;
    let heads = run.into_heads();
    let closes = closes_of(alloc, heads.as_slice())?;
    let part = Part {
        end,
        items: Items::new(heads, kept),
        closes,
        markers,
    };
    Ok(Told {
        part,
        fault,
        batches,
        sizes,
        epochs: Listed::new(epochs),
    })
}

impl Part {
    /// The log of a partition that is declared to end here, of whose records it is kept that they are there. What is kept counts as
    /// that of the whole list of its segments.
    ///
    /// # Errors
    /// Only want of memory.
    pub(crate) fn of_presence(
        alloc: Global,
        end: End,
        run: Option<Kept<Vec<()>>>,
    ) -> Result<Told, AllocError>
        ensures { IfOk result (IsMade Presence (λ offset r. tt) end run) }
    {
        let (front, kept, sizes) = apart(alloc, run);
        made(alloc, end, front, Records::Presence(kept), sizes)
    }

    /// The same of an output, of whose records the claims are kept, as headers can say them. The topics are those that were asked
    /// for.
    ///
    /// # Errors
    /// Only want of memory.
    pub(crate) fn of_outputs(
        alloc: Global,
        end: End,
        topics: Vec<Bytes>,
        run: Option<Kept<KeptOutputs>>,
    ) -> Result<Told, AllocError>
        requires { AllKept (λ one. ReadsBack (claim_kept topics.items one)) run }
        ensures { IfOk result (IsMade Claims (λ offset r. kept_output topics.items (claim_of r.headers)) end run) }
    {
        let (front, kept, sizes) = apart(alloc, run);
        made(alloc, end, front, Records::Claims { topics, kept }, sizes)
    }

    /// The same of one of Kafka's own logs, of whose records keys and values are kept, and no headers but those of their claims.
    ///
    /// # Errors
    /// Only want of memory.
    pub(crate) fn of_texts(
        alloc: Global,
        end: End,
        run: Option<Kept<KeptTexts>>,
    ) -> Result<Told, AllocError>
        requires { AllKept SaysClaim run }
        ensures { IfOk result (IsMade Texts (λ offset r. wanted_record Texts r) end run) }
    {
        let (front, kept, sizes) = apart(alloc, run);
        made(alloc, end, front, Records::Texts(kept), sizes)
    }

    /// The topic's bytes.
    pub fn topic(&self) -> &Bytes
        ensures { result.now ≡ self.now.topic }
    {
        &self.end.topic
    }

    /// The partition's number in its topic.
    pub fn partition(&self) -> i32
        ensures { result ≡ self.now.number }
    {
        self.end.partition
    }

    /// The offset where the partition is declared to end.
    pub fn end(&self) -> i64
        ensures { result ≡ self.now.end }
    {
        self.end.end
    }

    /// The data records, by offset.
    pub fn items(&self) -> &Items
        ensures items { result.now ≡ self.now.items }
        ensures rise { Rises self.now.items }
    {
        &self.items
    }

    /// Of each transactional data batch and its next end marker, each unequal four once, in ascending order.
    pub fn closes(&self) -> &[Close]
        ensures closes { result.now ≡ self.now.closes }
        ensures ascend { Ascends self.now.closes }
    {
        self.closes.as_slice()
    }

    /// Every end marker, by offset.
    pub fn markers(&self) -> &[Marker]
        ensures { result.now ≡ self.now.markers }
    {
        self.markers.as_slice()
    }
}
