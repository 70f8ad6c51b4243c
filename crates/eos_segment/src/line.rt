//! The line of what a record says.

ghost use Rattle.std.specs.Prelude.{◌≡◌, OnOk, string_bytes};
ghost use Rattle.eos_text.specs.Adding.{Adds};
ghost use Rattle.eos_segment.specs.Decoding.{decoded_line};

use crate::claim::push_output;
use crate::commit::push_commit;
use crate::reading::Reading;
use crate::transaction::push_transaction;
use eos_batch::Record;
use std::alloc::{AllocError, Global};

/// Adds the line of what a data record says that is read so.
///
/// # Errors
/// Only want of memory; what doesn't read has a line that names the refusal.
pub fn push_decoded(
    alloc: Global,
    out: &mut String,
    reading: Reading,
    item: &Record,
) -> Result<(), AllocError>
    ensures { OnOk result (Adds (string_bytes out.old) (string_bytes out.new) (decoded_line reading item.now)) }
{
    match reading {
        Reading::Outputs => push_output(alloc, out, item.headers.as_slice()),
        Reading::Transactions => push_transaction(alloc, out, &item.key, &item.value),
        Reading::Offsets => push_commit(alloc, out, &item.key, &item.value),
    }
}
