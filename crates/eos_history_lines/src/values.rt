//! The members of lines.

ghost use Rattle.std.specs.Prelude.{◌≡◌, OnOk};
ghost use Rattle.eos_manifest.specs.Objects.{held};
ghost use Rattle.eos_history_lines.specs.steps.Held.{with_head, with_line};
ghost use Rattle.eos_history_lines.specs.Lines.{with_sizes, with_reply, with_tail};

use crate::events::put_event;
use crate::line::{Deed, Head, Line, Tail};
use crate::notes::put_note;
use crate::switch_names::value_of_switches;
use crate::words::reply_word;
use eos_machine::{Config, Reply};
use eos_manifest::Object;
use serde_json::Value;
use std::alloc::{AllocError, Global};

/// Those of the first.
#[tactic(auto, unfolding(crate::specs::Lines::with_asked))]
pub(crate) fn put_head(alloc: Global, out: &mut Object, head: &Head) -> Result<(), AllocError>
    ensures { OnOk result (held out.new ≡ with_head head.now (held out.old)) }
{
    out.put_count("schema", 1)?;
    put_sizes(out, head.config)?;
    out.put("switches", value_of_switches(alloc, head.switches)?)?;
    out.put_count("seed", head.seed)?;
    out.put_count("words", head.words)
}

#[tactic(auto, unfolding(crate::specs::Lines::with_sizes))]
fn put_sizes(out: &mut Object, config: Config) -> Result<(), AllocError>
    ensures { OnOk result (held out.new ≡ with_sizes config (held out.old)) }
{
    out.put_size("applications", config.applications)?;
    out.put_size("inputs", config.inputs)?;
    out.put_size("outputs", config.outputs)?;
    out.put_size("transaction_logs", config.transaction_logs)?;
    out.put_size("segment_records", config.segment_records)?;
    out.put_size("batch_records", config.batch_records)?;
    out.put("chain", Value::Bool(config.chain))
}

/// Those of what was done.
#[tactic(auto, unfolding(crate::specs::Lines::with_deed))]
pub(crate) fn put_line(alloc: Global, out: &mut Object, line: &Line) -> Result<(), AllocError>
    ensures { OnOk result (held out.new ≡ with_line line.now (held out.old)) }
{
    out.put_count("number", line.number)?;
    match &line.deed {
        Deed::Asked { event, reply } => {
            put_reply(out, *reply)?;
            put_event(alloc, out, event)
        }
        Deed::Set(switches) => out.put("set", value_of_switches(alloc, *switches)?),
        Deed::Noted(note) => put_note(out, note),
    }
}

#[tactic(auto, unfolding(crate::specs::Lines::with_reply, crate::specs::Lines::with_value))]
fn put_reply(out: &mut Object, reply: Option<Reply>) -> Result<(), AllocError>
    ensures { OnOk result (held out.new ≡ with_reply reply (held out.old)) }
{
    let Some(reply) = reply else {
        return Ok(());
    };
    out.put_str("reply", reply_word(reply))?;
    match reply {
        Reply::Done(number) => out.put_count("value", number),
        _ => Ok(()),
    }
}

/// Those of the last.
#[tactic(auto, unfolding(crate::specs::Lines::with_tail))]
pub(crate) fn put_tail(out: &mut Object, tail: &Tail) -> Result<(), AllocError>
    ensures { OnOk result (held out.new ≡ with_tail tail.now (held out.old)) }
{
    out.put_count("events", tail.events)?;
    out.put_count("transactions", tail.transactions)?;
    out.put_count("lost", tail.lost)?;
    out.put_count("repeated", tail.repeated)
}
