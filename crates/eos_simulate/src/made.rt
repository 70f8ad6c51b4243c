//! What a run makes: the evidence, and the texts of its history and of its labels.

ghost use Rattle.std.specs.Prelude.{IfOk, option_map, string_bytes};
ghost use Rattle.eos_simulate.specs.Folders.{IsOfScript, IsOfLines, AreTextsOf};
ghost use Rattle.eos_simulate.specs.HistoryTexts.{IsHistoryIf};
ghost use Rattle.eos_simulate.specs.steps.Heads.{head_of};

use crate::course::Course;
use crate::history_file::history_text;
use crate::kept::simulate;
use crate::label_lines::labels_if;
use crate::making::SimulationFault;
use crate::replaying::{ReplayFault, replay};
use eos_drive::History;
use eos_evidence::Evidence;
use eos_history_lines::{Head, Schedule};
use std::alloc::{AllocError, Global};

/// What a cluster left: the evidence, and the texts of its history and of its labels, if these were asked for.
#[derive(Drop)]
pub(crate) struct Made {
    pub(crate) evidence: Evidence,
    pub(crate) history: Option<String>,
    pub(crate) labels: Option<String>,
}

/// Which texts are wanted.
#[derive(Clone, Copy)]
pub struct WantedTexts {
    pub history: bool,
    pub labels: bool,
}

/// What a script leaves.
#[tactic(auto, using(crate::proofs::MadeRuns::of_script))]
pub(crate) fn by_script(
    alloc: Global,
    course: &Course,
    keeps: WantedTexts,
) -> Result<Made, SimulationFault>
    ensures { IfOk result (λ made. IsOfScript course.now.config course.now.switches course.now.stops course.now.unclean (head_of course.now) keeps made.evidence (option_map string_bytes made.history, option_map string_bytes made.labels)) }
{
    let mut history = History::new(alloc);
    let evidence = simulate(alloc, course, &mut history)?;
    match texts_of(alloc, keeps, &course.head(), &history, course.stops) {
        Ok(texts) => Ok(Made {
            evidence,
            history: texts.0,
            labels: texts.1,
        }),
        Err(fault) => {
            drop(evidence);
            Err(fault)
        }
    }
}

/// What the lines of a schedule leave.
#[tactic(auto, using(crate::proofs::MadeRuns::of_lines))]
pub(crate) fn by_lines(
    alloc: Global,
    schedule: &Schedule,
    keeps: WantedTexts,
    stops: bool,
) -> Result<Made, ReplayFault>
    ensures { IfOk result (λ made. IsOfLines schedule.now stops keeps made.evidence (option_map string_bytes made.history, option_map string_bytes made.labels)) }
{
    let mut history = History::new(alloc);
    let evidence = match replay(alloc, schedule, &mut history, stops) {
        Ok(evidence) => evidence,
        Err(fault) => return Err(fault),
    };
    match texts_of(alloc, keeps, &schedule.head, &history, stops) {
        Ok(texts) => Ok(Made {
            evidence,
            history: texts.0,
            labels: texts.1,
        }),
        Err(_) => {
            drop(evidence);
            Err(ReplayFault::OutOfMemory)
        }
    }
}

/// The texts of a history, and of its labels, that are wanted.
fn texts_of(
    alloc: Global,
    keeps: WantedTexts,
    head: &Head,
    history: &History,
    stops: bool,
) -> Result<(Option<String>, Option<String>), SimulationFault>
    ensures { IfOk result (λ texts. AreTextsOf keeps head.now head.now.config stops history.now (option_map string_bytes texts.0, option_map string_bytes texts.1)) }
{
    let labels = labels_if(alloc, keeps.labels, head.config, history, stops)?;
    let history = text_if(alloc, keeps.history, head, history)?;
    Ok((history, labels))
}

/// The text of a history, if it is wanted.
fn text_if(
    alloc: Global,
    keeps: bool,
    head: &Head,
    history: &History,
) -> Result<Option<String>, AllocError>
    ensures { IfOk result (λ text. IsHistoryIf keeps head.now history.now (option_map string_bytes text)) }
{
    if keeps {
        let text = history_text(alloc, head, history)?;
        return Ok(Some(text));
    }
    Ok(None)
}
