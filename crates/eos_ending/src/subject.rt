//! Which of several folders a line is about.

ghost use Rattle.std.specs.Prelude.{Some};
ghost use Rattle.eos_ending.specs.Subjects.{subject_text};

use std::fmt::{Display, Formatter, Write};

/// Which folder a line is about. Printed, it is how the line begins.
#[derive(Clone, Copy)]
pub enum Subject<'a> {
    /// There is only one, so nothing is said.
    Only,
    /// This one of several.
    Folder(&'a str),
}

impl Display for Subject<'_> {
    ghost output = { λ subject. Some (subject_text subject) };

    fn fmt<W: Write>(&self, f: &mut Formatter<W>) -> std::fmt::Result {
        match self {
            Subject::Only => Ok(()),
            Subject::Folder(folder) => write!(f, "{folder}: "),
        }
    }
}
