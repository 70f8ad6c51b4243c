//! A sample of the sources of an application's claims and inputs.

ghost use Rattle.std.specs.Prelude.{◌≤◌};

use crate::lent::{LentName, LentPlace};
use crate::reading::name_of;
use crate::tables::Books;
use eos_commits::is_visible;
use eos_kept::{KeptBatch, Look, Part};
use std::alloc::{AllocError, Global};

/// Of so many claims the source of one is in the sample: they take 8 KiB, so the sample takes a 250th of the memory.
const CLAIMS_OF_A_STEP: usize = 78;

/// Of so many inputs one, which take as much.
const INPUTS_OF_A_STEP: usize = 256;

/// Whose sources are sampled.
#[derive(Clone, Copy)]
enum Kind {
    Claims,
    Inputs,
}

/// The sources of some of a list's records.
#[derive(Drop)]
struct Sample<'a> {
    sources: Vec<LentPlace<'a>>,
    /// How many records are passed before the next.
    left: usize,
}

fn step_of(kind: Kind) -> usize
    ensures { 1 ≤ result }
{
    match kind {
        Kind::Claims => CLAIMS_OF_A_STEP,
        Kind::Inputs => INPUTS_OF_A_STEP,
    }
}

/// The source of a record, if it is visible and has one.
fn source_of<'a>(kind: Kind, partition: LentName<'a>, look: &Look<'a>) -> Option<LentPlace<'a>> {
    if !is_visible(look.fate) {
        return None;
    }
    match kind {
        Kind::Inputs => Some(LentPlace {
            partition,
            offset: look.offset,
        }),
        Kind::Claims => {
            let claim = look.claim?;
            Some(LentPlace {
                partition: LentName {
                    topic: claim.topic,
                    partition: claim.partition,
                },
                offset: claim.offset,
            })
        }
    }
}

impl<'a> Sample<'a> {
    fn take(
        &mut self,
        kind: Kind,
        partition: LentName<'a>,
        look: &Look<'a>,
    ) -> Result<(), AllocError> {
        let Some(source) = source_of(kind, partition, look) else {
            return Ok(());
        };
        self.sources.push(source)?;
        Ok(())
    }

    /// Passes the records of a batch.
    fn pass_batch(
        &mut self,
        kind: Kind,
        partition: LentName<'a>,
        batch: &KeptBatch<'a>,
    ) -> Result<(), AllocError> {
        let mut at = self.left;
        while at < batch.len() {
            self.take(kind, partition, &batch.look(at))?;
            at = at.saturating_add(step_of(kind));
        }
        self.left = at - batch.len();
        Ok(())
    }

    /// Passes the records of a partition.
    fn pass_part(&mut self, kind: Kind, part: &'a Part) -> Result<(), AllocError> {
        let name = name_of(part);
        let mut batches = part.items().batches();
        while let Some(batch) = batches.next() {
            self.pass_batch(kind, name, &batch)?;
        }
        Ok(())
    }
}

/// Sources of an application's claims and inputs: of so many that take 8 KiB one.
pub(crate) fn sample_of<'a>(
    alloc: Global,
    books: &Books<'a>,
) -> Result<Vec<LentPlace<'a>>, AllocError> {
    let mut sample = Sample {
        sources: Vec::new(alloc),
        left: CLAIMS_OF_A_STEP,
    };
    for part in books.parts {
        if books.sources.has(part.topic().as_slice()) {
            sample.pass_part(Kind::Inputs, part)?;
        }
        if books.outputs.has(part.topic().as_slice()) {
            sample.pass_part(Kind::Claims, part)?;
        }
    }
    Ok(sample.sources)
}
