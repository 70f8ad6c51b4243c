//! Counts, offsets and answers.

ghost use Rattle.std.specs.Prelude.{◌≡◌, ◌+◌, ◌<◌, ℕ, Bool, true, pos, int_lt, length, slice_index_or, IfOk};

use std::alloc::AllocError;

/// The sum of two counts.
///
/// # Errors
/// Want of memory, where 64 bits can't count so many: no machine has memory for them.
pub fn sum(a: u64, b: u64) -> Result<u64, AllocError>
    ensures { IfOk result (λ s. s ≡ a + b) }
{
    a.checked_add(b).ok_or(AllocError)
}

/// Whether the offset is below this one, as a committed offset has it.
pub fn is_below(offset: u64, limit: i64) -> bool
    ensures { result ≡ int_lt (pos offset) limit }
{
    limit > 0 && offset < limit as u64
}

/// Whether all answers are yes.
pub fn are_all(answers: &[bool]) -> bool
    ensures { result ≡ true → (i : ℕ) (d : Bool) → i < length answers.now → slice_index_or answers.now i d ≡ true }
{
    for answer in answers {
        if !*answer {
            return false;
        }
    }
    true
}
