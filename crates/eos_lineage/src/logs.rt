//! The logs of partitions with their names.

ghost use Rattle.std.specs.Prelude.{◌≡◌, map, IfOk};
ghost use Rattle.eos_fold.specs.Parts.{part_name};

use eos_base::PartitionName;
use eos_commits::Names;
use eos_kept::Part;
use std::alloc::{AllocError, Global};
use std::marker::Model;

/// The logs of partitions and their names, among which a lent name is looked up; contracts see the logs.
#[derive(Drop)]
pub(crate) struct Logs<'a> {
    names: Names<'a>,
    parts: &'a [Part],
}

impl<'a> Model for Logs<'a> {
    ghost use Rattle.std.specs.Prelude.{◌≡◌, List, map};
    ghost use Rattle.eos_fold.specs.Parts.{PartLog, part_name};

    ghost Value = { List PartLog };

    ghost view = { λ l. l.parts.now };

    ghost invariant = { λ l. l.names ≡ map part_name l.parts.now };
}

impl<'a> Logs<'a> {
    /// These logs, whose names are these.
    pub(crate) fn of(
        alloc: Global,
        names: &'a [PartitionName],
        parts: &'a [Part],
    ) -> Result<Logs<'a>, AllocError>
        requires { names.now ≡ map part_name parts.now }
        ensures { IfOk result (λ logs. logs ≡ parts.entry.now) }
    {
        let names = Names::of(alloc, names)?;
        Ok(Logs { names, parts })
    }

    /// Their names, in their order.
    pub(crate) fn names(&self) -> &Names<'a>
        ensures { result.now ≡ map part_name self.now }
    {
        &self.names
    }

    /// The logs.
    pub(crate) fn parts(&self) -> &'a [Part]
        ensures { result.now ≡ self.now }
    {
        self.parts
    }
}
