//! What was done wrong in a run, as the simulator says it.

ghost use Rattle.std.specs.Prelude.{◌≡◌, ◌∷◌, [], IfOk, OnOk};
ghost use Rattle.eos_machine.specs.declared.config.Config.{Config};
ghost use Rattle.eos_drive.specs.Driven.{after_deed};
ghost use Rattle.eos_simulate.specs.Histories.{new_course};
ghost use Rattle.eos_simulate.specs.steps.AddedLabels.{AddsLabels, AddsStop, is_left_out};
ghost use Rattle.eos_simulate.specs.Labels.{broken_if, broken_labels, taken_at, answer_labels, tail_labels, election_labels, event_labels, wrong_note, deed_labels, AreLabelsOf};

use crate::history_file::copy;
use crate::making::{SimulationFault, new_cluster};
use bytes::Bytes;
use eos_cluster::{Cluster, Switch, Switches};
use eos_drive::{Deed, Note};
use eos_machine::{Config, Event, Reply};
use std::alloc::{AllocError, Global};

/// A message that was taken, and where it stands.
#[derive(Clone, Copy)]
pub struct Taken {
    /// Its number.
    pub message: u64,
    /// The place of its log among all logs.
    pub place: usize,
    /// Its offset there, if it was written at all.
    pub offset: u64,
}

/// The last records of a partition's log, which were acknowledged and are lost.
#[derive(Drop)]
pub struct LostTail {
    pub topic: Bytes,
    pub partition: usize,
    /// The offset of the first.
    pub offset: u64,
    pub records: u64,
}

/// What was wrong.
#[derive(Drop)]
pub enum Wrong {
    /// This rule is broken: a cluster that keeps it refuses the message, or writes it otherwise.
    Broken(Switch, Taken),
    /// The network lost the message of this number.
    Lost(u64),
    /// The network delivers the message of this number again, or late.
    Repeated(u64),
    /// A transaction makes this mishap.
    Erred(Bytes),
    /// The run stops here, and the cluster isn't at rest.
    Stopped,
    /// A leader was elected that lacks these records.
    Unclean(LostTail),
}

/// What was wrong, and the number of its line in the history.
#[derive(Drop)]
pub struct Label {
    pub number: u64,
    pub wrong: Wrong,
}

/// The labels of what was done to a new cluster of these sizes, in order: each mishap, each message that was lost or repeated, and each
/// rule that was broken where a message was taken; last, where the run stops there, that the cluster isn't at rest; and no other.
pub fn labels_of(
    alloc: Global,
    config: Config,
    deeds: &[Deed],
    stops: bool,
) -> Result<Vec<Label>, SimulationFault>
    ensures { IfOk result (λ labels. AreLabelsOf stops config deeds.now labels.items) }
{
    let mut cluster = new_cluster(alloc, config)?;
    let labels = labels_in(alloc, &mut cluster, deeds, stops);
    drop(cluster);
    Ok(labels?)
}

/// The same of what was done to this cluster.
#[tactic(auto, using(crate::proofs::Labelled::labelled, crate::proofs::Labelled::further, crate::proofs::Labelled::stopped))]
fn labels_in(
    alloc: Global,
    cluster: &mut Cluster,
    deeds: &[Deed],
    stops: bool,
) -> Result<Vec<Label>, AllocError>
    ensures { (c : Config) → cluster.old ≡ new_course c → IfOk result (λ labels. AreLabelsOf stops c deeds.now labels.items) }
{
    let mut labels = Vec::new(alloc);
    for place in 0..deeds.len() {
        push_deed(&mut labels, place as u64 + 1, cluster, &deeds[place])?;
        follow(cluster, &deeds[place])?;
    }
    push_stop(&mut labels, deeds.len() as u64, cluster, stops)?;
    Ok(labels)
}

/// Adds the label of a run that stops after so many deeds, where the cluster isn't at rest.
#[tactic(auto, using(crate::proofs::Stopping::added_stop))]
fn push_stop(
    labels: &mut Vec<Label>,
    number: u64,
    cluster: &Cluster,
    stops: bool,
) -> Result<(), AllocError>
    ensures { OnOk result (AddsStop stops cluster.now.world number labels.old.items labels.new.items) }
{
    if !stops || cluster.at_rest() {
        return Ok(());
    }
    push_label(labels, number, Wrong::Stopped)?;
    Ok(())
}

/// Does to a cluster what was done.
#[tactic(auto, using(crate::proofs::Labelled::followed))]
fn follow(cluster: &mut Cluster, deed: &Deed) -> Result<(), AllocError>
    ensures { OnOk result (cluster.new ≡ after_deed cluster.old deed.now) }
{
    match deed {
        Deed::Asked { event, .. } => {
            if is_left_out(cluster.step(event.clone()?)) {
                return Err(AllocError);
            }
            Ok(())
        }
        Deed::Set(switches) => {
            cluster.set(*switches);
            Ok(())
        }
        Deed::Noted(_) => Ok(()),
    }
}

/// Whether an event was left out for want of memory.
fn is_left_out(reply: Reply) -> bool
    ensures { result ≡ is_left_out reply }
{
    matches!(reply, Reply::OutOfMemory)
}

/// Adds the labels of the deed of this number, before which the cluster is so.
fn push_deed(
    labels: &mut Vec<Label>,
    number: u64,
    cluster: &Cluster,
    deed: &Deed,
) -> Result<(), AllocError>
    ensures { OnOk result (AddsLabels labels.old.items labels.new.items (deed_labels cluster.now number deed.now)) }
{
    match deed {
        Deed::Asked { event, reply } => push_event(labels, number, cluster, event, *reply),
        Deed::Set(_) => Ok(()),
        Deed::Noted(note) => {
            let wrong = wrong_note(note)?;
            push_label(labels, number, wrong)
        }
    }
}

fn push_event(
    labels: &mut Vec<Label>,
    number: u64,
    cluster: &Cluster,
    event: &Event,
    reply: Reply,
) -> Result<(), AllocError>
    ensures { OnOk result (AddsLabels labels.old.items labels.new.items (event_labels cluster.now number event.now reply)) }
{
    match event {
        Event::Deliver { message } | Event::WriteMarker { message } => {
            push_answer(labels, number, cluster, *message, reply)
        }
        Event::Elect {
            topic,
            partition,
            kept,
        } => {
            let tail = LostTail {
                topic: copy(topic)?,
                partition: *partition,
                offset: *kept,
                records: 0,
            };
            push_election(labels, number, cluster, tail, reply)
        }
        _ => Ok(()),
    }
}

/// Adds the label of an election of a leader that has the records before this offset.
fn push_election(
    labels: &mut Vec<Label>,
    number: u64,
    cluster: &Cluster,
    tail: LostTail,
    reply: Reply,
) -> Result<(), AllocError>
    ensures { OnOk result (AddsLabels labels.old.items labels.new.items (election_labels cluster.now number tail reply)) }
{
    let Reply::Done(_) = reply else {
        return Ok(());
    };
    let records = cluster.record_count(&tail.topic, tail.partition);
    push_tail(labels, number, tail, records)
}

/// The same of a partition whose log has so many records.
fn push_tail(
    labels: &mut Vec<Label>,
    number: u64,
    tail: LostTail,
    records: Option<usize>,
) -> Result<(), AllocError>
    ensures { OnOk result (AddsLabels labels.old.items labels.new.items (tail_labels number tail records)) }
{
    match records {
        Some(records) if tail.offset < records as u64 => {
            let lost = LostTail {
                topic: tail.topic,
                partition: tail.partition,
                offset: tail.offset,
                records: records as u64 - tail.offset,
            };
            push_label(labels, number, Wrong::Unclean(lost))
        }
        _ => Ok(()),
    }
}

fn push_answer(
    labels: &mut Vec<Label>,
    number: u64,
    cluster: &Cluster,
    message: u64,
    reply: Reply,
) -> Result<(), AllocError>
    ensures { OnOk result (AddsLabels labels.old.items labels.new.items (answer_labels cluster.now number message reply)) }
{
    let Reply::Done(offset) = reply else {
        return Ok(());
    };
    let taken = taken_at(cluster, message, offset);
    push_broken(labels, number, cluster.broken(message), taken)
}

fn taken_at(cluster: &Cluster, message: u64, offset: u64) -> Taken
    ensures { result ≡ taken_at cluster.now message offset }
{
    Taken {
        message,
        place: cluster.log_of(message),
        offset,
    }
}

/// Adds a label for each of these rules.
fn push_broken(
    labels: &mut Vec<Label>,
    number: u64,
    rules: Switches,
    taken: Taken,
) -> Result<(), AllocError>
    ensures { OnOk result (AddsLabels labels.old.items labels.new.items (broken_labels rules number taken)) }
{
    push_if(
        labels,
        rules.keep_duplicates,
        number,
        Switch::KeepDuplicates,
        taken,
    )?;
    push_if(labels, rules.no_fence, number, Switch::NoFence, taken)?;
    push_if(labels, rules.no_bump, number, Switch::NoBump, taken)?;
    push_if(labels, rules.lose_marker, number, Switch::LoseMarker, taken)?;
    push_if(labels, rules.swap_marker, number, Switch::SwapMarker, taken)?;
    push_if(
        labels,
        rules.hide_listing,
        number,
        Switch::HideListing,
        taken,
    )?;
    push_if(
        labels,
        rules.ignore_generation,
        number,
        Switch::IgnoreGeneration,
        taken,
    )?;
    Ok(())
}

fn push_if(
    labels: &mut Vec<Label>,
    is_broken: bool,
    number: u64,
    rule: Switch,
    taken: Taken,
) -> Result<(), AllocError>
    ensures { OnOk result (AddsLabels labels.old.items labels.new.items (broken_if is_broken rule number taken)) }
{
    if is_broken {
        return push_label(labels, number, Wrong::Broken(rule, taken));
    }
    Ok(())
}

fn push_label(labels: &mut Vec<Label>, number: u64, wrong: Wrong) -> Result<(), AllocError>
    ensures { OnOk result (AddsLabels labels.old.items labels.new.items (record { number = number; wrong = wrong } ∷ [])) }
{
    labels.push(Label { number, wrong })?;
    Ok(())
}

fn wrong_note(note: &Note) -> Result<Wrong, AllocError>
    ensures { IfOk result (λ wrong. wrong ≡ wrong_note note.now) }
{
    match note {
        Note::Lost(message) => Ok(Wrong::Lost(*message)),
        Note::Repeated(message) => Ok(Wrong::Repeated(*message)),
        Note::Erred(mishap) => Ok(Wrong::Erred(copy(mishap)?)),
    }
}
