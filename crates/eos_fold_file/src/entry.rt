//! Lists of a fold file: so many entries, one after the other.

ghost use Rattle.std.specs.Prelude.{◌≡◌, ◌++◌, flat_map, OnOk};
ghost use Rattle.eos_fold_file.specs.Numbers.{many_from};
ghost use Rattle.eos_fold_file.specs.Legal.{Each};
ghost use Rattle.eos_fold_file.specs.steps.Faults.{Gives};

use crate::fault::FoldFault;
use crate::number::{read_bytes, write_slice};
use bytes::Bytes;
use eos_base::Listed;
use eos_wire::Cursor;
use std::alloc::{AllocError, Global};

/// An entry of a list.
pub(crate) trait Entry: Drop + Sized {
    ghost use Rattle.std.specs.Prelude.{◌≡◌, ◌++◌, ℕ, List, Result, OnOk};
    ghost use Rattle.eos_fold_file.specs.declared.fault.FoldFault.{FoldFault};
    ghost use Rattle.eos_fold_file.specs.steps.Faults.{Gives};

    /// How it is read.
    ghost entry_from: { List ℕ → Result (Self × List ℕ) FoldFault };

    /// Its bytes.
    ghost entry_text: { Self → List ℕ };

    /// Its numbers are of their widths.
    ghost entry_fits: { Self → Type 0 };

    fn read(alloc: Global, rest: &mut Cursor<'_>) -> Result<Self, FoldFault>
        ensures { Gives result rest.new (entry_from rest.old) };

    fn write(&self, out: &mut Vec<u8>) -> Result<(), AllocError>
        ensures text { OnOk result (out.new.items ≡ out.old.items ++ entry_text self.now) }
        ensures fit { OnOk result (entry_fits self.now) };
}

/// So many entries. Their list has room for no more of them than bytes are left, so a count that the bytes don't bear out reserves
/// little.
pub(crate) fn read_many<T: Entry>(
    alloc: Global,
    rest: &mut Cursor<'_>,
    count: u64,
) -> Result<Listed<T>, FoldFault>
    ensures { Gives result rest.new (many_from T.entry_from count rest.old) }
{
    let room = count.min(rest.left() as u64) as usize;
    let mut entries = Listed::new(Vec::with_capacity(alloc, room)?);
    let mut here = rest.fork();
    for _ in 0..count {
        let entry = T::read(alloc, &mut here)?;
        entries.push(entry)?;
    }
    *rest = here;
    Ok(entries)
}

/// Appends entries, one after the other.
pub(crate) fn write_many<T: Entry>(out: &mut Vec<u8>, entries: &[T]) -> Result<(), AllocError>
    ensures text { OnOk result (out.new.items ≡ out.old.items ++ flat_map T.entry_text entries.now) }
    ensures fit { OnOk result (Each T.entry_fits entries.now) }
{
    for entry in entries {
        entry.write(out)?;
    }
    Ok(())
}

impl Entry for Bytes {
    ghost use Rattle.eos_fold_file.specs.Legal.{IsText};
    ghost use Rattle.eos_fold_file.specs.Numbers.{bytes_from, bytes_text};

    ghost entry_from = { bytes_from };

    ghost entry_text = { bytes_text };

    ghost entry_fits = { IsText };

    fn read(_alloc: Global, rest: &mut Cursor<'_>) -> Result<Bytes, FoldFault> {
        read_bytes(rest)
    }

    fn write(&self, out: &mut Vec<u8>) -> Result<(), AllocError> {
        write_slice(out, self.as_slice())
    }
}
