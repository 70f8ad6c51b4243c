//! How many faults of each kind there are.

ghost use Rattle.std.specs.Prelude.{◌≡◌, ◌++◌, OnOk, IfOk, length, filter, flat_map, option_map, string_bytes};
ghost use Rattle.eos_text.specs.Adding.{Adds};
ghost use Rattle.eos_verdict.specs.Counts.{has_number, first_with, kind_named, kind_text, counts_line};

use crate::verdict::Verdict;
use eos_text::{push_text, push_value};
use std::alloc::AllocError;

fn has_number(number: u8, told: &Verdict) -> bool
    ensures { result ≡ has_number number told.now }
{
    match told {
        Verdict::Yes(_) => false,
        Verdict::No(fault) => fault.number() == number,
    }
}

fn count_of(told: &[Verdict], number: u8) -> usize
    ensures { result ≡ length (filter (has_number number) told.now) }
{
    let mut count = 0;
    for verdict in told {
        if has_number(number, verdict) {
            count += 1;
        }
    }
    count
}

fn first_with(told: &[Verdict], number: u8) -> Option<&Verdict>
    ensures { option_map (λ v. v.now) result ≡ first_with number told.now }
{
    for verdict in told {
        if has_number(number, verdict) {
            return Some(verdict);
        }
    }
    None
}

fn push_named(out: &mut String, count: usize, first: &Verdict) -> Result<(), AllocError>
    ensures { OnOk result (Adds (string_bytes out.old) (string_bytes out.new) (kind_named count first.now)) }
{
    match first {
        Verdict::Yes(_) => push_text(out, ""),
        Verdict::No(fault) => {
            push_value(out, ", ", &count)?;
            push_value(out, " of ", &fault.phase())?;
            push_value(out, ".", &fault.number())?;
            push_value(out, " ", &fault.name())?;
            Ok(())
        }
    }
}

fn push_kind(out: &mut String, told: &[Verdict], number: u8) -> Result<(), AllocError>
    ensures { OnOk result (Adds (string_bytes out.old) (string_bytes out.new) (kind_text told.now number)) }
{
    match first_with(told, number) {
        None => push_text(out, ""),
        Some(first) => push_named(out, count_of(told, number), first),
    }
}

fn push_kinds(out: &mut String, told: &[Verdict], numbers: &[u8]) -> Result<(), AllocError>
    ensures { OnOk result (Adds (string_bytes out.old) (string_bytes out.new) (flat_map (kind_text told.now) numbers.now)) }
{
    for number in numbers {
        push_kind(out, told, *number)?;
    }
    Ok(())
}

/// Adds the line of how many faults there are, and of which kinds, where each of these verdicts names one of them.
///
/// # Errors
/// A growth of memory was refused.
pub fn push_counts(out: &mut String, told: &[Verdict]) -> Result<(), AllocError>
    ensures { OnOk result (Adds (string_bytes out.old) (string_bytes out.new) (counts_line told.now)) }
{
    push_value(out, "Faults: ", &told.len())?;
    push_text(out, " in all")?;
    push_kinds(out, told, &[1u8, 2, 3, 4, 5, 6, 7, 8, 9, 10, 11, 12])?;
    push_text(out, "\n")?;
    Ok(())
}
