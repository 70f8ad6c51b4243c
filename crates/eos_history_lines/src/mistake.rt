//! What is wrong with a line. Printed, it is a part of a sentence that says what to mend.

ghost use Rattle.std.specs.Prelude.{Some};
ghost use Rattle.eos_history_lines.specs.FaultTexts.{mistake_text};

use std::fmt::{Display, Formatter, Write};

/// What is wrong with a line that is JSON: the first that is found.
#[derive(Clone, Copy)]
pub enum Mistake {
    /// It is no object.
    NoObject,
    /// It lacks the member of this name.
    Absent(&'static str),
    /// The member of this name isn't what is wanted there.
    Another(&'static str, &'static str),
    /// No event has its name.
    UnknownEvent,
    /// No reply has its name.
    UnknownReply,
    /// No switch has this name.
    UnknownSwitch,
    /// The switches aren't in their order, each once.
    SwitchOrder,
    /// No note has its name.
    UnknownNote,
    /// It has a member that such a line hasn't.
    Surplus,
    /// Two members of one object have one name.
    Doubled,
    /// It stands after the last line.
    AfterTail,
}

impl Display for Mistake {
    ghost output = { λ mistake. Some (mistake_text mistake) };

    fn fmt<W: Write>(&self, f: &mut Formatter<W>) -> std::fmt::Result {
        match self {
            Mistake::NoObject => f.write_str("it is no JSON object"),
            Mistake::Absent(name) => write!(f, "{name} is absent"),
            Mistake::Another(name, wanted) => write!(f, "{name} isn't {wanted}"),
            Mistake::UnknownEvent => f.write_str("there is no event of this name"),
            Mistake::UnknownReply => f.write_str("there is no reply of this name"),
            Mistake::UnknownSwitch => f.write_str("there is no switch of this name"),
            Mistake::SwitchOrder => f.write_str("the switches aren't in their order, each once"),
            Mistake::UnknownNote => f.write_str("there is no note of this name"),
            Mistake::Surplus => f.write_str("it has a member that such a line hasn't"),
            Mistake::Doubled => f.write_str("a member stands twice in it"),
            Mistake::AfterTail => f.write_str("it stands after the line of the totals"),
        }
    }
}
