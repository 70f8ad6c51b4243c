//! The evidence that a collector brings who makes mistakes, and their labels.

ghost use Rattle.std.specs.Prelude.{◌≡◌, ◌++◌, Some, Ok, IfOk, OnOk, flat_map, option_map, string_bytes};
ghost use Rattle.eos_text.specs.Adding.{Adds};
ghost use Rattle.eos_evidence.specs.Evidence.{added};
ghost use Rattle.eos_evidence.specs.SpecFields.{accepted};
ghost use Rattle.eos_machine.specs.Evidences.{adding};
ghost use Rattle.eos_simulate.specs.Collecting.{after_mistakes, copied_from, IsMadeOf, IsCollected};
ghost use Rattle.eos_simulate.specs.CollectedRuns.{IsCollectedAs};
ghost use Rattle.eos_simulate.specs.MistakeTexts.{what_codes, collected_text, collected_lines};

use crate::copied::Copied;
use crate::label_lines::json_of;
use crate::made::Made;
use crate::making::SimulationFault;
use crate::mistake::{Mistake, What};
use eos_base::Listed;
use eos_evidence::{AddFault, End, Evidence, EvidenceBuilder, Segment, Spec, SpecFault};
use eos_text::{push_text, push_value};
use std::alloc::{AllocError, Global};

/// What a run made, as it is brought by a collector who makes these mistakes, one after the other. The labels say them last.
///
/// # Errors
/// `Unfit` where there is nothing in which one can be made, or where no evidence comes of it.
pub(crate) fn collected(
    alloc: Global,
    made: Made,
    mistakes: &[Mistake<'_>],
) -> Result<Made, SimulationFault>
    ensures { IfOk result (λ brought. IsCollectedAs mistakes.now made.evidence (option_map string_bytes made.history, option_map string_bytes made.labels) brought.evidence (option_map string_bytes brought.history, option_map string_bytes brought.labels)) }
{
    let Made {
        evidence,
        history,
        labels,
    } = made;
    let evidence = evidence_with(alloc, evidence, mistakes)?;
    match labels_with(alloc, labels, mistakes) {
        Ok(labels) => Ok(Made {
            evidence,
            history,
            labels,
        }),
        Err(_) => {
            drop(evidence);
            Err(SimulationFault::OutOfMemory)
        }
    }
}

fn evidence_with(
    alloc: Global,
    evidence: Evidence,
    mistakes: &[Mistake<'_>],
) -> Result<Evidence, SimulationFault>
    ensures { IfOk result (IsCollected mistakes.now evidence) }
{
    if mistakes.is_empty() {
        return Ok(evidence);
    }
    match brought(alloc, &evidence, mistakes) {
        Ok(copied) => {
            let made = made_of(alloc, &evidence, copied);
            drop(evidence);
            made
        }
        Err(fault) => {
            drop(evidence);
            Err(fault)
        }
    }
}

/// What is brought.
#[tactic(auto, using(crate::proofs::Brought::all_made))]
fn brought(
    alloc: Global,
    evidence: &Evidence,
    mistakes: &[Mistake<'_>],
) -> Result<Copied, SimulationFault>
    ensures { IfOk result (λ copied. after_mistakes mistakes.now (copied_from evidence.now) ≡ Some copied) }
{
    let mut copied = Copied::of(alloc, evidence)?;
    for mistake in mistakes {
        if !copied.can_make(mistake) {
            return Err(SimulationFault::Unfit(
                mistake.what.name(),
                "nothing is there in which it can be made",
            ));
        }
        copied = copied.after(alloc, mistake)?;
    }
    Ok(copied)
}

/// The evidence that is made of these files and ends.
fn made_of(alloc: Global, evidence: &Evidence, copied: Copied) -> Result<Evidence, SimulationFault>
    ensures { IfOk result (IsMadeOf evidence.now copied) }
{
    let Copied { ends, files } = copied;
    let spec = spec_with(alloc, evidence.spec(), ends)?;
    let mut builder = EvidenceBuilder::new(alloc, spec)?;
    match add_files(&mut builder, files.as_slice()) {
        Ok(()) => Ok(builder.finish()),
        Err(fault) => {
            drop(builder);
            Err(fault)
        }
    }
}

/// The spec with these ends.
fn spec_with(alloc: Global, spec: &Spec, ends: Listed<End>) -> Result<Spec, SimulationFault>
    ensures { IfOk result (λ made. accepted (record spec.now { ends = ends }) ≡ Ok made) }
{
    match Spec::new(alloc, spec.apps().clone()?, ends) {
        Ok(spec) => Ok(spec),
        Err(SpecFault::OutOfMemory) => Err(SimulationFault::OutOfMemory),
        Err(_) => Err(NO_EVIDENCE),
    }
}

const NO_EVIDENCE: SimulationFault = SimulationFault::Unfit(
    "--collect",
    "two partitions, or two files of one, have the same name",
);

#[tactic(auto, using(crate::proofs::Brought::one_added, crate::proofs::Brought::all_added))]
fn add_files(builder: &mut EvidenceBuilder, files: &[Segment]) -> Result<(), SimulationFault>
    ensures { OnOk result (adding builder.old files.now ≡ Ok builder.new) }
{
    for file in files {
        add_file(builder, file.copy()?)?;
    }
    Ok(())
}

fn add_file(builder: &mut EvidenceBuilder, file: Segment) -> Result<(), SimulationFault>
    ensures { OnOk result (added builder.old file ≡ Ok builder.new) }
{
    match builder.add(file) {
        Ok(()) => Ok(()),
        Err(AddFault::OutOfMemory) => Err(SimulationFault::OutOfMemory),
        Err(_) => Err(NO_EVIDENCE),
    }
}

// ---- the labels

/// The labels, if they are wanted, and behind them those of the mistakes.
fn labels_with(
    alloc: Global,
    labels: Option<String>,
    mistakes: &[Mistake<'_>],
) -> Result<Option<String>, AllocError>
    ensures { IfOk result (λ all. option_map string_bytes all ≡ option_map (λ text. text ++ collected_lines mistakes.now) (option_map string_bytes labels)) }
{
    let Some(mut text) = labels else {
        return Ok(None);
    };
    for mistake in mistakes {
        push_label(alloc, &mut text, mistake)?;
    }
    Ok(Some(text))
}

fn push_label(alloc: Global, out: &mut String, mistake: &Mistake<'_>) -> Result<(), AllocError>
    ensures { OnOk result (Adds (string_bytes out.old) (string_bytes out.new) (collected_text mistake.now)) }
{
    let word = mistake.word(alloc)?;
    let json = json_of(alloc, word.as_str())?;
    push_value(out, "{\"codes\":", &codes_of(mistake.what))?;
    push_value(out, ",\"label\":\"collected\",\"mistake\":", &json.as_str())?;
    push_text(out, "}\n")?;
    Ok(())
}

/// The codes of the faults that may follow.
#[tactic(auto, unfolding(crate::specs::MistakeTexts::what_codes))]
fn codes_of(what: What) -> &'static str
    ensures { result.now ≡ what_codes what }
{
    match what {
        What::LostSegment(_) =>
            "[\"1.2\",\"1.10\",\"1.11\",\"2.5\",\"3.2\",\"3.5\",\"3.7\",\"5.6\",\"5.7\",\"5.11\"]",
        What::CutSegment(_) => "[\"1.1\"]",
        What::RenamedSegment(_, _) => "[\"1.2\"]",
        What::TurnedByte(_) => "[\"1.1\",\"1.2\"]",
        What::RewrittenByte(_) =>
            "[\"1.1\",\"1.2\",\"1.3\",\"1.4\",\"1.5\",\"1.6\",\"1.7\",\"1.8\",\"1.9\",\"1.11\",\"2.1\",\"2.2\",\"2.3\",\"2.4\",\"2.5\",\"3.1\",\"3.2\",\"3.3\",\"3.4\",\"3.5\",\"3.6\",\"3.7\",\"4.1\",\"4.2\",\"4.3\",\"4.4\",\"5.5\",\"5.6\",\"5.7\",\"5.8\",\"5.9\",\"5.10\",\"5.11\",\"5.12\"]",
        What::TwoReplicas => "[\"1.2\"]",
        What::Compacted => "[\"1.1\",\"1.2\"]",
        What::WrongEnd(_) =>
            "[\"1.10\",\"1.11\",\"2.5\",\"3.2\",\"3.5\",\"3.7\",\"5.6\",\"5.7\",\"5.11\"]",
        What::Forgotten => "[\"3.2\",\"3.5\",\"3.6\",\"5.6\",\"5.7\",\"5.11\"]",
        What::Doubled(_) => "[\"2.3\",\"3.1\",\"3.4\",\"3.5\",\"4.3\",\"5.10\"]",
    }
}
