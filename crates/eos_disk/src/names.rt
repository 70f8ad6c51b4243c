//! What the name of a file in a partition's folder says.

ghost use Rattle.std.specs.Prelude.{◌≡◌, ◌==◌, ◌&&◌, pos, length, option_map};
ghost use Rattle.std.specs.Char.{is_ascii_digit};
ghost use Rattle.std.specs.List.{list_all};
ghost use Rattle.eos_disk.specs.Names.{base_in, form_in, file_in_name};
ghost use Rattle.eos_disk.specs.Paths.{ending_of};

use eos_base::{are_digits, value_of_digits};

/// How many digits the name of a segment has before its ending.
const DIGITS: usize = 20;

/// In which form a segment stands in a folder.
#[derive(Clone, Copy)]
pub enum Form {
    /// As its log: all of its bytes.
    Log,
    /// As its fold: what was kept of them.
    Fold,
}

/// A file that is named as a segment, by its first offset.
#[derive(Clone, Copy)]
pub(crate) struct FileName {
    pub(crate) base: i64,
    pub(crate) form: Form,
}

impl Form {
    /// How the name of a file of this form ends.
    pub(crate) fn ending(self) -> &'static str
        ensures { result.now ≡ ending_of self }
    {
        match self {
            Form::Log => ".log",
            Form::Fold => ".fold",
        }
    }
}

/// The segment that a file of this name holds: 20 decimal digits, at most the greatest offset, and `.log` or `.fold`.
pub(crate) fn read_file_name(name: &[u8]) -> Option<FileName>
    ensures { result ≡ file_in_name name.now }
{
    let (digits, ending) = name.split_at_checked(DIGITS)?;
    let form = read_form(ending)?;
    let base = read_base(digits)?;
    Some(FileName { base, form })
}

fn read_form(ending: &[u8]) -> Option<Form>
    ensures { result ≡ form_in ending.now }
{
    if ending == b".log".as_slice() {
        Some(Form::Log)
    } else if ending == b".fold".as_slice() {
        Some(Form::Fold)
    } else {
        None
    }
}

fn read_base(digits: &[u8]) -> Option<i64>
    ensures { result ≡ option_map pos (base_in digits.now) }
{
    if !are_base_digits(digits) {
        return None;
    }
    let value = value_of_digits(digits);
    if value > i64::MAX as u128 {
        return None;
    }
    Some(value as i64)
}

/// Whether these are as many digits as a name has.
fn are_base_digits(text: &[u8]) -> bool
    ensures { result ≡ (length text.now == 20 && list_all is_ascii_digit text.now) }
{
    text.len() == DIGITS && are_digits(text)
}
