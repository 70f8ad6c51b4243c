//! What is kept of the record of an output.

ghost use Rattle.std.specs.Prelude.{◌≡◌, option_map, IfOk, IfSome};
ghost use Rattle.eos_claims.specs.Slots.{plain_claim};
ghost use Rattle.eos_reading.specs.NameIndexes.{index_of as index_among};
ghost use Rattle.eos_reading.specs.Outputs.{Unclaimed, Foreign, kept_output, claim_kept, asked_output, output_said};
ghost use Rattle.eos_reading.specs.steps.Forms.{output_in};

use crate::boxed::BoxedClaim;
use bytes::Bytes;
use eos_claims::ClaimRef;
use std::alloc::{AllocError, Global};
use std::marker::Model;

/// A claim of an input of one of the topics that are asked for.
#[derive(Clone, Copy)]
pub struct AskedClaim {
    /// The index of the input's topic among those that are asked for.
    pub topic: usize,
    /// The input's partition and offset.
    pub partition: i32,
    pub offset: u64,
    /// The number of this output among the input's outputs, and how many these are.
    pub output: u32,
    pub of: u32,
}

/// What is kept of a record of an output, lent.
pub enum OutputRef<'a> {
    /// Its headers are no claim.
    Unclaimed,
    /// Its claim is of an input of one of the topics that are asked for.
    Asked(AskedClaim),
    /// Its claim is of an input of another topic.
    Foreign(ClaimRef<'a>),
}

/// Fields lie as they stand here, behind a byte that tells the form.
#[derive(Drop)]
enum Form {
    Unclaimed,
    /// A claim of a topic that is asked for, whose numbers are small: all but a few are.
    Near {
        topic: u8,
        partition: u16,
        output: u16,
        of: u16,
        offset: u64,
    },
    Wide(Box<AskedClaim>),
    Foreign(BoxedClaim),
}

/// What is kept of a record of an output: its claim, exactly. Most claims name a topic that is asked for, and hold no bytes.
#[derive(Drop)]
pub struct KeptOutput {
    form: Form,
}

const _: () = prove!(size_of::<KeptOutput>() <= 16);

impl Model for KeptOutput {
    ghost use Rattle.eos_reading.specs.Outputs.{KeptOutput};
    ghost use Rattle.eos_reading.specs.steps.Forms.{output_in};

    ghost Value = { KeptOutput };

    ghost view = { λ k. output_in k.form };
}

/// The index of the first of these names that is this one.
fn index_of(names: &[Bytes], name: &[u8]) -> Option<usize>
    ensures { result ≡ index_among names.now name.now }
{
    names.iter().position(|one| one.as_slice() == name)
}

/// The claim in less room, where its numbers are small.
fn near(claim: AskedClaim) -> Option<Form>
    ensures { IfSome result (λ form. output_in form ≡ asked_output claim) }
{
    Some(Form::Near {
        topic: u8::try_from(claim.topic).ok()?,
        partition: u16::try_from(claim.partition).ok()?,
        output: u16::try_from(claim.output).ok()?,
        of: u16::try_from(claim.of).ok()?,
        offset: claim.offset,
    })
}

impl KeptOutput {
    /// That there is no claim.
    pub fn unclaimed() -> KeptOutput
        ensures { result ≡ Unclaimed }
    {
        KeptOutput {
            form: Form::Unclaimed,
        }
    }

    /// A claim of a topic that is asked for.
    ///
    /// # Errors
    /// Only want of memory, and only where a number is great: a partition, an output or a count of 65,536, or a topic's index of 256.
    pub fn asked(alloc: Global, claim: AskedClaim) -> Result<KeptOutput, AllocError>
        ensures { IfOk result (λ kept. kept ≡ asked_output claim) }
    {
        let form = match near(claim) {
            Some(form) => form,
            None => Form::Wide(Box::new(alloc, claim)?),
        };
        Ok(KeptOutput { form })
    }

    /// A claim of another topic.
    pub fn foreign(claim: BoxedClaim) -> KeptOutput
        ensures { result ≡ Foreign claim }
    {
        KeptOutput {
            form: Form::Foreign(claim),
        }
    }

    /// What is kept of a claim, or that there is none. Its topic is looked for among those that are asked for.
    ///
    /// # Errors
    /// Only want of memory, and only where the topic isn't one of them or a number is great, as `asked` tells.
    pub fn of(
        alloc: Global,
        topics: &[Bytes],
        claim: Option<ClaimRef<'_>>,
    ) -> Result<KeptOutput, AllocError>
        ensures { IfOk result (λ kept. kept ≡ kept_output topics.now (option_map plain_claim claim.entry)) }
    {
        let Some(claim) = claim else {
            return Ok(KeptOutput::unclaimed());
        };
        let Some(topic) = index_of(topics, claim.topic) else {
            return Ok(KeptOutput::foreign(BoxedClaim::new(alloc, &claim)?));
        };
        KeptOutput::asked(
            alloc,
            AskedClaim {
                topic,
                partition: claim.partition,
                offset: claim.offset,
                output: claim.output,
                of: claim.of,
            },
        )
    }

    /// What is kept, lent.
    pub fn view(&self) -> OutputRef<'_>
        ensures { output_said result ≡ self.now }
    {
        match &self.form {
            Form::Unclaimed => OutputRef::Unclaimed,
            Form::Near {
                topic,
                partition,
                output,
                of,
                offset,
            } => OutputRef::Asked(AskedClaim {
                topic: usize::from(*topic),
                partition: i32::from(*partition),
                offset: *offset,
                output: u32::from(*output),
                of: u32::from(*of),
            }),
            Form::Wide(claim) => OutputRef::Asked(**claim),
            Form::Foreign(claim) => OutputRef::Foreign(claim.view()),
        }
    }

    /// The claim, lent. The topics are those that were asked for when it was kept.
    pub fn claim<'a>(&'a self, topics: &'a [Bytes]) -> Option<ClaimRef<'a>>
        ensures { option_map plain_claim result ≡ claim_kept topics.now self.now }
    {
        match self.view() {
            OutputRef::Unclaimed => None,
            OutputRef::Foreign(claim) => Some(claim),
            OutputRef::Asked(claim) => {
                let name = topics.get(claim.topic)?;
                Some(ClaimRef {
                    topic: name.as_slice(),
                    partition: claim.partition,
                    offset: claim.offset,
                    output: claim.output,
                    of: claim.of,
                })
            }
        }
    }
}
