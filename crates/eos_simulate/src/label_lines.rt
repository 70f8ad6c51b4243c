//! The lines of labels, as JSON.

ghost use Rattle.std.specs.Prelude.{◌≡◌, IfOk, OnOk, flat_map, option_map, string_bytes};
ghost use Rattle.serde_json.specs.Data.{string};
ghost use Rattle.serde_json.specs.View.{view};
ghost use Rattle.serde_json.specs.Written.{compact_text};
ghost use Rattle.eos_text.specs.Adding.{Adds};
ghost use Rattle.eos_machine.specs.LogIndexes.{IsConfig};
ghost use Rattle.eos_drive.specs.Mishaps.{name_in};
ghost use Rattle.eos_simulate.specs.LabelTexts.{rule_codes, stop_codes, stop_text, tail_codes, tail_text, mishap_codes, broken_text, network_text, utf8_or_empty, mishap_text, wrong_text, label_text, AreLabelsIf};

use crate::labels::{Label, LostTail, Taken, Wrong, labels_of};
use crate::making::{SimulationFault, new_cluster};
use eos_cluster::{Cluster, Switch};
use eos_drive::History;
use eos_log_writer::{number_of, topic_of};
use eos_machine::Config;
use eos_text::{push_escaped, push_text, push_value};
use serde_json::Value;
use std::alloc::{AllocError, Global};

/// A line for each label of what was done to a new cluster of these sizes, if they are wanted.
pub(crate) fn labels_if(
    alloc: Global,
    wanted: bool,
    config: Config,
    history: &History,
    stops: bool,
) -> Result<Option<String>, SimulationFault>
    ensures { IfOk result (λ text. AreLabelsIf wanted config stops history.now (option_map string_bytes text)) }
{
    if !wanted {
        return Ok(None);
    }
    let labels = labels_of(alloc, config, history.deeds(), stops)?;
    let cluster = new_cluster(alloc, config)?;
    let text = text_of(alloc, &cluster, labels.as_slice());
    drop(cluster);
    Ok(Some(text?))
}

/// The lines of these labels, in a cluster of these sizes.
fn text_of(alloc: Global, cluster: &Cluster, labels: &[Label]) -> Result<String, AllocError>
    ensures { IfOk result (λ text. string_bytes text ≡ flat_map (label_text cluster.now.config) labels.now) }
{
    let mut text = String::new(alloc);
    for label in labels {
        push_line(alloc, &mut text, cluster, label)?;
    }
    Ok(text)
}

fn push_line(
    alloc: Global,
    out: &mut String,
    cluster: &Cluster,
    label: &Label,
) -> Result<(), AllocError>
    ensures { OnOk result (Adds (string_bytes out.old) (string_bytes out.new) (label_text cluster.now.config label.now)) }
{
    let number = label.number;
    match &label.wrong {
        Wrong::Broken(rule, taken) => push_broken(alloc, out, cluster, (number, *rule), *taken),
        Wrong::Lost(message) => push_network(out, "lost", number, *message),
        Wrong::Repeated(message) => push_network(out, "repeated", number, *message),
        Wrong::Erred(mishap) => push_mishap(alloc, out, number, mishap.as_slice()),
        Wrong::Stopped => push_stopped(out, number),
        Wrong::Unclean(tail) => push_tail(alloc, out, number, tail),
    }
}

/// Adds the line of this number of a run that stops.
fn push_stopped(out: &mut String, number: u64) -> Result<(), AllocError>
    ensures { OnOk result (Adds (string_bytes out.old) (string_bytes out.new) (stop_text number)) }
{
    push_value(out, "{\"codes\":", &stop_codes())?;
    push_value(out, ",\"label\":\"stopped\",\"number\":", &number)?;
    push_text(out, "}\n")?;
    Ok(())
}

/// The codes of the faults that may follow where a run stops.
#[tactic(auto, unfolding(crate::specs::LabelTexts::stop_codes))]
fn stop_codes() -> &'static str
    ensures { result.now ≡ stop_codes }
{
    "[\"1.11\",\"2.5\",\"5.7\",\"5.11\"]"
}

/// Adds the line of this number of an election that lost records.
fn push_tail(
    alloc: Global,
    out: &mut String,
    number: u64,
    tail: &LostTail,
) -> Result<(), AllocError>
    ensures { OnOk result (Adds (string_bytes out.old) (string_bytes out.new) (tail_text number tail.now)) }
{
    push_value(out, "{\"codes\":", &tail_codes())?;
    push_value(out, ",\"label\":\"unclean-election\",\"number\":", &number)?;
    push_value(out, ",\"offset\":", &tail.offset)?;
    push_escaped(alloc, out, ",\"partition\":\"", tail.topic.as_slice())?;
    push_value(out, "-", &tail.partition)?;
    push_value(out, "\",\"records\":", &tail.records)?;
    push_text(out, "}\n")?;
    Ok(())
}

/// The codes of the faults that may follow where records were lost that were acknowledged.
#[tactic(auto, unfolding(crate::specs::LabelTexts::tail_codes))]
fn tail_codes() -> &'static str
    ensures { result.now ≡ tail_codes }
{
    "[\"1.6\",\"1.9\",\"1.11\",\"3.3\",\"3.7\",\"5.6\",\"5.7\",\"5.8\",\"5.10\",\"5.11\",\"5.12\"]"
}

/// The codes of the faults that may follow where this rule is broken.
#[tactic(auto, unfolding(crate::specs::LabelTexts::rule_codes))]
fn rule_codes(rule: Switch) -> &'static str
    ensures { result.now ≡ rule_codes rule }
{
    match rule {
        Switch::KeepDuplicates => "[\"1.4\",\"5.6\",\"5.8\",\"5.10\",\"5.12\"]",
        Switch::NoFence =>
            "[\"1.3\",\"1.4\",\"1.5\",\"1.6\",\"1.11\",\"3.2\",\"3.3\",\"3.4\",\"5.7\",\"5.10\",\"5.11\",\"5.12\"]",
        Switch::NoBump =>
            "[\"1.3\",\"1.5\",\"1.7\",\"3.3\",\"3.5\",\"3.7\",\"5.6\",\"5.8\",\"5.10\",\"5.11\",\"5.12\"]",
        Switch::LoseMarker => "[\"1.6\",\"1.11\",\"3.7\",\"5.7\",\"5.11\"]",
        Switch::SwapMarker =>
            "[\"1.9\",\"3.3\",\"3.5\",\"3.7\",\"5.6\",\"5.7\",\"5.8\",\"5.10\",\"5.11\",\"5.12\"]",
        Switch::HideListing =>
            "[\"1.6\",\"1.11\",\"3.3\",\"3.4\",\"3.5\",\"5.6\",\"5.8\",\"5.10\",\"5.11\",\"5.12\"]",
        Switch::IgnoreGeneration => "[\"5.7\",\"5.10\",\"5.11\",\"5.12\"]",
    }
}

/// Adds the line of this number of a rule that was broken where a message was taken.
fn push_broken(
    alloc: Global,
    out: &mut String,
    cluster: &Cluster,
    broken: (u64, Switch),
    taken: Taken,
) -> Result<(), AllocError>
    ensures { OnOk result (Adds (string_bytes out.old) (string_bytes out.new) (broken_text cluster.now.config broken.0 broken.1 taken)) }
{
    let config = *cluster.config();
    let topic = topic_of(config, taken.place);
    push_value(out, "{\"codes\":", &rule_codes(broken.1))?;
    push_value(
        out,
        ",\"label\":\"broken-rule\",\"message\":",
        &taken.message,
    )?;
    push_value(out, ",\"number\":", &broken.0)?;
    push_value(out, ",\"offset\":", &taken.offset)?;
    push_escaped(alloc, out, ",\"partition\":\"", topic.as_slice())?;
    push_value(out, "-", &number_of(config, taken.place))?;
    push_value(out, "\",\"rule\":\"", &broken.1.name())?;
    push_text(out, "\"}\n")?;
    Ok(())
}

/// Adds the line of this number of a message that was lost or repeated.
fn push_network(out: &mut String, label: &str, number: u64, message: u64) -> Result<(), AllocError>
    ensures { OnOk result (Adds (string_bytes out.old) (string_bytes out.new) (network_text label.now number message)) }
{
    push_value(out, "{\"label\":\"", &label)?;
    push_value(out, "\",\"message\":", &message)?;
    push_value(out, ",\"number\":", &number)?;
    push_text(out, "}\n")?;
    Ok(())
}

// ---- mishaps

/// The code of the fault of a mishap of this name.
#[tactic(auto, unfolding(crate::specs::LabelTexts::mishap_codes))]
fn mishap_codes(name: &str) -> &'static str
    ensures { result.now ≡ mishap_codes name.now }
{
    if name == "lost-output" {
        "[\"5.11\"]"
    } else if name == "repeated-output" {
        "[\"5.10\"]"
    } else if name == "early-output" {
        "[\"5.7\"]"
    } else if name == "wrong-count" {
        "[\"5.8\"]"
    } else if name == "wrong-number" {
        "[\"5.9\"]"
    } else if name == "foreign-source" {
        "[\"5.5\"]"
    } else if name == "other-transaction" {
        "[\"5.12\"]"
    } else if name == "no-headers" {
        "[\"4.1\"]"
    } else if name == "offset-deleted" {
        "[\"4.4\"]"
    } else if name == "aborted-input" {
        "[\"5.6\"]"
    } else {
        "[]"
    }
}

/// The name in a mishap's word.
fn name_in(word: &str) -> &str
    ensures { result.now ≡ name_in word.now }
{
    match word.split_once('@') {
        Some((name, _)) => name,
        None => word,
    }
}

/// Bytes as the text that they are, if they are one.
fn utf8_or_empty(bytes: &[u8]) -> &str
    ensures { result.now ≡ utf8_or_empty bytes.now }
{
    match str::from_utf8(bytes) {
        Ok(text) => text,
        Err(_) => "",
    }
}

/// A text as JSON.
pub(crate) fn json_of(alloc: Global, text: &str) -> Result<String, AllocError>
    ensures { IfOk result (λ json. string_bytes json ≡ compact_text (string text.now)) }
{
    let value = value_of(alloc, text)?;
    let json = value.to_string(alloc);
    drop(value);
    json
}

pub(crate) fn value_of(alloc: Global, text: &str) -> Result<Value, AllocError>
    ensures { IfOk result (λ value. view value ≡ string text.now) }
{
    Ok(Value::String(String::from_str(alloc, text)?))
}

/// Adds the line of this number of a mishap.
fn push_mishap(
    alloc: Global,
    out: &mut String,
    number: u64,
    mishap: &[u8],
) -> Result<(), AllocError>
    ensures { OnOk result (Adds (string_bytes out.old) (string_bytes out.new) (mishap_text number (utf8_or_empty mishap.now))) }
{
    let word = utf8_or_empty(mishap);
    let json = json_of(alloc, word)?;
    push_value(out, "{\"codes\":", &mishap_codes(name_in(word)))?;
    push_value(out, ",\"label\":\"mishap\",\"mishap\":", &json.as_str())?;
    push_value(out, ",\"number\":", &number)?;
    push_text(out, "}\n")?;
    Ok(())
}
