//! Which rules are broken where a message is taken.

ghost use Rattle.std.specs.Prelude.{◌≡◌, slice_get, Some};
ghost use Rattle.eos_machine.specs.declared.event.Reply.{Reply};
ghost use Rattle.eos_machine.specs.LogIndexes.{IsConfig};
ghost use Rattle.eos_machine.specs.Formed.{Names};
ghost use Rattle.eos_machine.specs.Deliveries.{deliver};
ghost use Rattle.eos_machine.specs.Switching.{none};
ghost use Rattle.eos_broker.specs.Named.{IsNamed};
ghost use Rattle.eos_machine.specs.Machine.{reread};
ghost use Rattle.eos_cluster.specs.Breaches.{is_marker, kept_by, is_unlisted, altered_marker, altered, log_of};
ghost use Rattle.eos_cluster.specs.steps.Refusing.{IsRefusal};

use crate::accept::Request;
use crate::deliver_end::end_refusal;
use crate::deliver_marker::{EndMarker, is_marker_fenced};
use crate::deliver_offset::judge_offset;
use crate::deliver_output::judge_output;
use crate::restarted::last_said;
use eos_broker::answers::waits_for;
use eos_broker::log_indexes::{OFFSETS_INDEX, is_odd_output, written_index};
use eos_broker::{Store, copies};
use eos_machine::{Config, Message, Reply, Switch, Switches};

// ---- how a cluster that keeps its rules refuses a message

fn message_refusal(store: &Store, number: u64, message: &Message) -> Option<Reply>
    requires named { Names store.now.config message.now }
    ensures { IsRefusal result (deliver none store.now.config store.now.world number (Some message.now)).1 }
{
    let honest = Switches::none();
    match message {
        Message::Output {
            application,
            epoch,
            partition,
            sequence,
            ..
        } => {
            let place = written_index(store.config(), *application, *partition);
            let request = Request::new(number, *application, *epoch, place);
            judge_output(store, honest, request, *sequence).err()
        }
        Message::Offset {
            application,
            epoch,
            generation,
            ..
        } => {
            let request = Request::new(number, *application, *epoch, OFFSETS_INDEX);
            judge_offset(store, honest, request, *generation).err()
        }
        Message::End {
            application,
            epoch,
            kind,
        } => end_refusal(store, *application, *epoch, *kind),
        Message::Marker {
            application,
            epoch,
            kind,
            place,
        } => {
            let marker = EndMarker::new(*application, *epoch, *kind, *place);
            is_marker_fenced(store, honest, marker).then_some(Reply::Fenced)
        }
    }
}

/// Why the message of this number is refused, if it is.
pub(crate) fn refusal(store: &Store, number: u64) -> Option<Reply>
    requires { IsNamed store.now.config (slice_get store.now.world.messages number) }
    ensures { IsRefusal result (deliver none store.now.config store.now.world number (slice_get store.now.world.messages number)).1 }
{
    match store.message(number) {
        Some(message) => message_refusal(store, number, message),
        None => Some(Reply::Unknown),
    }
}

// ---- which rules that keeps

fn is_marker(message: &Message) -> bool
    ensures { result ≡ is_marker (Some message.now) }
{
    match message {
        Message::Marker { .. } => true,
        Message::Output { .. } | Message::Offset { .. } | Message::End { .. } => false,
    }
}

/// The rule that an answer to an end marker, or to another message, keeps.
fn kept_by(marker: bool, reply: Reply) -> Switches
    ensures { result ≡ kept_by marker reply }
{
    match reply {
        Reply::Fenced => {
            if marker {
                return Switches::only(Switch::NoBump);
            }
            Switches::only(Switch::NoFence)
        }
        Reply::OutOfOrder | Reply::DuplicateKept => Switches::only(Switch::KeepDuplicates),
        Reply::StaleGeneration => Switches::only(Switch::IgnoreGeneration),
        Reply::Done(_)
        | Reply::WrongState
        | Reply::Busy
        | Reply::EpochsSpent
        | Reply::Unknown
        | Reply::OutOfMemory
        | Reply::Full => Switches::none(),
    }
}

/// The rule that a refusal keeps, if there is one.
#[tactic(auto, using(crate::proofs::Refused::taken_keeps, crate::proofs::Refused::refusal_keeps))]
fn kept_if(marker: bool, refusal: Option<Reply>) -> Switches
    ensures { (r : Reply) → IsRefusal refusal r → result ≡ kept_by marker r }
{
    match refusal {
        None => Switches::none(),
        Some(reply) => kept_by(marker, reply),
    }
}

/// Whether the last record of an end marker's application decides its transaction, and doesn't list its partition.
fn is_unlisted(store: &Store, marker: EndMarker) -> bool
    ensures { result ≡ is_unlisted (reread store.now.config store.now.world marker.application) marker.epoch marker.kind marker.place }
{
    match last_said(store, marker.application) {
        None => false,
        Some(entry) => {
            waits_for(entry.status, entry.epoch, marker.epoch, marker.kind)
                && !copies::has(marker.place, entry.partitions.as_slice())
        }
    }
}

/// The rules by which an end marker is written otherwise than it asks, beside one that this broker keeps.
fn altered_marker(store: &Store, switches: Switches, marker: EndMarker, kept: Switches) -> Switches
    ensures { result ≡ altered_marker switches store.now.config (reread store.now.config store.now.world marker.application) marker.epoch marker.kind marker.place kept }
{
    if switches.lose_marker {
        return Switches {
            lose_marker: true,
            swap_marker: false,
            hide_listing: false,
            ..kept
        };
    }
    Switches {
        no_bump: kept.no_bump || switches.no_bump,
        lose_marker: false,
        swap_marker: switches.swap_marker && is_odd_output(store.config(), marker.place),
        hide_listing: is_unlisted(store, marker),
        ..kept
    }
}

/// With those by which these switches change how a message is written.
fn altered(store: &Store, switches: Switches, message: &Message, kept: Switches) -> Switches
    requires { Names store.now.config message.now }
    ensures { result ≡ altered switches store.now.config store.now.world (Some message.now) kept }
{
    let config = store.config();
    match message {
        Message::Output {
            application,
            partition,
            ..
        } => Switches {
            hide_listing: switches.hide_listing
                && is_odd_output(config, written_index(config, *application, *partition)),
            ..kept
        },
        Message::Offset { .. } | Message::End { .. } => kept,
        Message::Marker {
            application,
            epoch,
            kind,
            place,
        } => {
            let marker = EndMarker::new(*application, *epoch, *kind, *place);
            altered_marker(store, switches, marker, kept)
        }
    }
}

/// The rules that are broken where the message of this number is taken, which a cluster that keeps its rules refuses so.
pub(crate) fn broken(
    store: &Store,
    switches: Switches,
    refusal: Option<Reply>,
    number: u64,
) -> Switches
    requires { IsNamed store.now.config (slice_get store.now.world.messages number) }
    ensures { (r : Reply) → IsRefusal refusal r
        → result ≡ altered switches store.now.config store.now.world (slice_get store.now.world.messages number) (kept_by (is_marker (slice_get store.now.world.messages number)) r) }
{
    match store.message(number) {
        Some(message) => {
            let kept = kept_if(is_marker(message), refusal);
            altered(store, switches, message, kept)
        }
        None => kept_if(false, refusal),
    }
}

// ---- where it stands

fn log_of(config: Config, message: &Message) -> usize
    requires config { IsConfig config }
    requires named { Names config message.now }
    ensures { result ≡ log_of config (Some message.now) }
{
    match message {
        Message::Output {
            application,
            partition,
            ..
        } => written_index(config, *application, *partition),
        Message::Offset { .. } => OFFSETS_INDEX,
        Message::End { .. } => 0,
        Message::Marker { place, .. } => *place,
    }
}

/// In which log the message of this number is to stand.
pub(crate) fn log_of_message(store: &Store, number: u64) -> usize
    requires config { IsConfig store.now.config }
    requires named { IsNamed store.now.config (slice_get store.now.world.messages number) }
    ensures { result ≡ log_of store.now.config (slice_get store.now.world.messages number) }
{
    match store.message(number) {
        Some(message) => log_of(store.config(), message),
        None => 0,
    }
}
