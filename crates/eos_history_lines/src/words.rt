//! The words of a history.

ghost use Rattle.std.specs.Prelude.{◌≡◌};
ghost use Rattle.eos_history_lines.specs.Words.{kind_word, note_word, event_word, reply_word};

use eos_batch::Kind;
use eos_machine::{Event, Note, Reply};

pub(crate) fn kind_word(kind: Kind) -> &'static str
    ensures { result.now ≡ kind_word kind }
{
    match kind {
        Kind::Commit => "commit",
        Kind::Abort => "abort",
    }
}

pub(crate) fn note_word(note: &Note) -> &'static str
    ensures { result.now ≡ note_word note.now }
{
    match note {
        Note::Lost(_) => "lost",
        Note::Repeated(_) => "repeated",
        Note::Erred(_) => "mishap",
    }
}

pub(crate) fn event_word(event: &Event) -> &'static str
    ensures { result.now ≡ event_word event.now }
{
    match event {
        Event::Feed { .. } => "feed",
        Event::Start { .. } => "start",
        Event::Produce { .. } => "produce",
        Event::Commit { .. } => "commit",
        Event::End { .. } => "end",
        Event::Resume { .. } => "resume",
        Event::Fetch { .. } => "fetch",
        Event::Members { .. } => "members",
        Event::BrokerRestart { .. } => "broker-restart",
        Event::CoordinatorRestart => "coordinator-restart",
        Event::Deliver { .. } => "deliver",
        Event::TimeOut { .. } => "time-out",
        Event::AddPartition { .. } => "add-partition",
        Event::WriteMarker { .. } => "write-marker",
        Event::Complete { .. } => "complete",
        Event::Elect { .. } => "elect",
    }
}

pub(crate) fn reply_word(reply: Reply) -> &'static str
    ensures { result.now ≡ reply_word reply }
{
    match reply {
        Reply::Done(_) => "done",
        Reply::Fenced => "fenced",
        Reply::OutOfOrder => "out-of-order",
        Reply::DuplicateKept => "duplicate-kept",
        Reply::WrongState => "wrong-state",
        Reply::Busy => "busy",
        Reply::StaleGeneration => "stale-generation",
        Reply::EpochsSpent => "epochs-spent",
        Reply::Unknown => "unknown",
        Reply::OutOfMemory => "out-of-memory",
        Reply::Full => "full",
    }
}
