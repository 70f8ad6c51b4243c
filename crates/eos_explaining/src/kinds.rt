//! How many faults of each kind there are: they are counted one after the other, and only those that are asked for are held.

ghost use Rattle.std.specs.Prelude.{◌≡◌, ◌≤◌, ◌<◌, ◌+◌, ◌++◌, ◌∷◌, [], ℕ, List, Some, true, false, flat_map, cond, IfOk, OnOk, string_bytes};
ghost use Rattle.std.specs.BTreeMap.{get};
ghost use Rattle.std.specs.Ordering.{nat_cmp, is_eq};
ghost use Rattle.eos_text.specs.Adding.{Adds};
ghost use Rattle.eos_verdict.specs.Counts.{counts_line};
ghost use Rattle.eos_verdict.specs.VerdictNames.{number_of};
ghost use Rattle.eos_verdict.specs.declared.lineage_fault.LineageFault.{LineageFault as OfLineage};
ghost use Rattle.eos_verdict.specs.declared.verdict.Fault.{Fault as AFault};
ghost use Rattle.eos_verdict.specs.declared.verdict.Fault.TheVariants.{Lineage};
ghost use Rattle.eos_verdict.specs.declared.verdict.Verdict.{Verdict as Named};
ghost use Rattle.eos_verdict.specs.declared.verdict.Verdict.TheVariants.{No};
ghost use Rattle.eos_faults.specs.OutputKinds.{IsOfKind};
ghost use Rattle.eos_explaining.specs.steps.Kinds.{kind_line, kind_at, counts_text};
ghost use Rattle.eos_explaining.specs.steps.Counting.{IsKindOf, HasKind, AreKinds, IsPicked, is_within, joined};

use eos_check::{Fault, Verdict};
use eos_claims::OutputKind;
use eos_faults::{FaultSink, LentOutput};
use eos_text::{push_text, push_value};
use std::alloc::{AllocError, Global};
use std::collections::BTreeMap;

/// A kind of faults: its number in its phase, which is another for each kind of one list, the phase and the name.
#[derive(Clone, Copy)]
pub(crate) struct Kind {
    pub(crate) number: u8,
    pub(crate) phase: u8,
    pub(crate) name: &'static str,
}

/// How many faults of a kind there are, its phase and its name.
#[derive(Clone, Copy)]
pub(crate) struct KindCount {
    pub(crate) count: u64,
    pub(crate) phase: u8,
    pub(crate) name: &'static str,
}

/// How many faults there are, and how many of each kind, by the kind's number.
#[derive(Drop)]
pub(crate) struct KindCounts {
    pub(crate) all: u64,
    pub(crate) kinds: BTreeMap<u8, KindCount>,
}

/// Which faults of a list are held: so many from this place on, which is counted from 0.
#[derive(Clone, Copy)]
pub(crate) struct Pick {
    pub(crate) from: u64,
    pub(crate) most: u64,
}

/// All faults that were taken, counted, and those of them that are held.
#[derive(Drop)]
pub(crate) struct Picked {
    pub(crate) pick: Pick,
    pub(crate) counts: KindCounts,
    pub(crate) told: Vec<Verdict>,
}

// ---- counting

fn kind_of(fault: &Fault) -> Kind
    ensures { IsKindOf fault.now result }
{
    Kind {
        number: fault.number(),
        phase: fault.phase(),
        name: fault.name(),
    }
}

/// The kind of a fault of the outputs.
fn kind_of_output(kind: OutputKind) -> Kind
    ensures { (fault : OfLineage) → IsOfKind kind fault → IsKindOf (Lineage fault) result }
{
    Kind {
        number: kind.number(),
        phase: 5,
        name: kind.name(),
    }
}

fn counted_in(kinds: &BTreeMap<u8, KindCount>, number: u8) -> Option<KindCount>
    ensures { result ≡ get nat_cmp kinds.now number }
{
    kinds.get(&number).copied()
}

fn put_count(
    kinds: &mut BTreeMap<u8, KindCount>,
    number: u8,
    count: KindCount,
) -> Result<(), AllocError>
    ensures { OnOk result ((n : ℕ) → get nat_cmp kinds.new n ≡ cond (is_eq (nat_cmp number n)) (Some count) (get nat_cmp kinds.old n)) }
{
    kinds.insert(number, count)?;
    Ok(())
}

/// The count of this kind with one fault more.
fn with_one(known: Option<KindCount>, kind: Kind) -> Result<KindCount, AllocError>
    ensures { IfOk result (λ count. (told : List Named) (fault : AFault) → IsKindOf fault kind → HasKind told (number_of fault) known → HasKind (told ++ No fault ∷ []) (number_of fault) (Some count)) }
{
    match known {
        None => Ok(KindCount {
            count: 1,
            phase: kind.phase,
            name: kind.name,
        }),
        Some(known) => {
            let count = known.count.checked_add(1).ok_or(AllocError)?;
            Ok(KindCount {
                count,
                phase: known.phase,
                name: known.name,
            })
        }
    }
}

/// The counts of a kind among these faults and among others.
fn joined(
    known: Option<KindCount>,
    more: Option<KindCount>,
) -> Result<Option<KindCount>, AllocError>
    ensures { IfOk result (λ both. both ≡ joined known more) }
{
    let Some(known) = known else {
        return Ok(more);
    };
    let Some(more) = more else {
        return Ok(Some(known));
    };
    let count = known.count.checked_add(more.count).ok_or(AllocError)?;
    Ok(Some(KindCount {
        count,
        phase: known.phase,
        name: known.name,
    }))
}

/// Puts those of the kind with this number among others with those that are there.
fn join_kind(
    kinds: &mut BTreeMap<u8, KindCount>,
    number: u8,
    more: Option<KindCount>,
) -> Result<(), AllocError>
    ensures here { OnOk result (get nat_cmp kinds.new number ≡ joined (get nat_cmp kinds.old number) more) }
    ensures others { OnOk result ((n : ℕ) → is_eq (nat_cmp number n) ≡ false → get nat_cmp kinds.new n ≡ get nat_cmp kinds.old n) }
{
    match joined(counted_in(kinds, number), more)? {
        None => Ok(()),
        Some(count) => put_count(kinds, number, count),
    }
}

/// Puts those of each kind among others with those that are there.
fn join_kinds(
    kinds: &mut BTreeMap<u8, KindCount>,
    more: &BTreeMap<u8, KindCount>,
) -> Result<(), AllocError>
    ensures { OnOk result ((n : ℕ) → n < 13 → get nat_cmp kinds.new n ≡ joined (get nat_cmp kinds.old n) (get nat_cmp more.now n)) }
{
    for number in 0u8..13 {
        join_kind(kinds, number, counted_in(more, number))?;
    }
    Ok(())
}

impl KindCounts {
    /// Of no fault.
    fn new(alloc: Global) -> KindCounts
        ensures { AreKinds [] result }
    {
        KindCounts {
            all: 0,
            kinds: BTreeMap::new(alloc),
        }
    }

    /// With one fault more, of this kind.
    fn take(&mut self, kind: Kind) -> Result<(), AllocError>
        ensures { (told : List Named) (fault : AFault) → IsKindOf fault kind → AreKinds told self.old → OnOk result (AreKinds (told ++ No fault ∷ []) self.new) }
    {
        let count = with_one(counted_in(&self.kinds, kind.number), kind)?;
        put_count(&mut self.kinds, kind.number, count)?;
        self.all = self.all.checked_add(1).ok_or(AllocError)?;
        Ok(())
    }
}

impl KindCounts {
    /// With other faults, of which these are the counts.
    fn join(&mut self, more: &KindCounts) -> Result<(), AllocError>
        ensures { (told list : List Named) → AreKinds told self.old → AreKinds list more.now → OnOk result (AreKinds (told ++ list) self.new) }
    {
        join_kinds(&mut self.kinds, &more.kinds)?;
        self.all = self.all.checked_add(more.all).ok_or(AllocError)?;
        Ok(())
    }
}

impl Picked {
    /// Of no fault.
    pub(crate) fn new(alloc: Global, pick: Pick) -> Picked
        ensures pick { result.pick ≡ pick }
        ensures none { IsPicked [] result }
    {
        Picked {
            pick,
            counts: KindCounts::new(alloc),
            told: Vec::new(alloc),
        }
    }

    /// Whether the next fault is held.
    fn is_asked(&self) -> bool
        ensures { result ≡ is_within self.now.pick self.now.counts.all }
    {
        let place = self.counts.all;
        place >= self.pick.from && place - self.pick.from < self.pick.most
    }

    /// Whether none of the next faults is held, which are so many.
    fn is_apart(&self, count: u64) -> bool
        ensures before { result ≡ true → self.now.counts.all < self.now.pick.from → self.now.counts.all + count ≤ self.now.pick.from }
        ensures behind { result ≡ true → self.now.pick.from ≤ self.now.counts.all → self.now.pick.from + self.now.pick.most ≤ self.now.counts.all }
    {
        let place = self.counts.all;
        if place < self.pick.from {
            return count <= self.pick.from - place;
        }
        place - self.pick.from >= self.pick.most
    }
}

impl FaultSink for Picked {
    ghost use Rattle.eos_explaining.specs.steps.Counting.{IsPickedMore, IsPicked};
    ghost use Rattle.eos_explaining.specs.steps.Picking.{none_picked, both_picked};

    ghost takes = { IsPickedMore };

    ghost is_share = { IsPicked [] };

    /// It holds none.
    fn share(alloc: Global) -> Picked {
        Picked::new(alloc, Pick { from: 0, most: 0 })
    }

    fn take(&mut self, fault: Fault) -> Result<(), AllocError> {
        let kind = kind_of(&fault);
        if self.is_asked() {
            self.told.push(Verdict::No(fault))?;
            return self.counts.take(kind);
        }
        drop(fault);
        self.counts.take(kind)
    }

    /// It has names of its own only where it is held.
    fn take_output(&mut self, alloc: Global, fault: &LentOutput<'_>) -> Result<(), AllocError> {
        let output = kind_of_output(fault.kind());
        if self.is_asked() {
            let fault = fault.own(alloc)?;
            self.told.push(Verdict::No(Fault::Lineage(fault)))?;
            return self.counts.take(output);
        }
        self.counts.take(output)
    }

    /// Of a share it takes the counts, and wants each fault where it holds one of them.
    fn join(&mut self, share: Picked) -> Result<bool, AllocError> {
        if !self.is_apart(share.counts.all) {
            drop(share);
            return Ok(false);
        }
        let joined = self.counts.join(&share.counts);
        drop(share);
        joined?;
        Ok(true)
    }

    ghost takes_none = { none_picked };

    ghost takes_both = { both_picked };
}

// ---- their line

fn push_count(out: &mut String, number: u8, kind: &KindCount) -> Result<(), AllocError>
    ensures { OnOk result (Adds (string_bytes out.old) (string_bytes out.new) (kind_line number (Some kind.now))) }
{
    push_value(out, ", ", &kind.count)?;
    push_value(out, " of ", &kind.phase)?;
    push_value(out, ".", &number)?;
    push_value(out, " ", &kind.name)
}

fn push_kind(out: &mut String, counts: &KindCounts, number: u8) -> Result<(), AllocError>
    ensures { OnOk result (Adds (string_bytes out.old) (string_bytes out.new) (kind_at counts.now number)) }
{
    match counted_in(&counts.kinds, number) {
        None => push_text(out, ""),
        Some(kind) => push_count(out, number, &kind),
    }
}

fn push_kinds(out: &mut String, counts: &KindCounts, numbers: &[u8]) -> Result<(), AllocError>
    ensures { OnOk result (Adds (string_bytes out.old) (string_bytes out.new) (flat_map (kind_at counts.now) numbers.now)) }
{
    for number in numbers {
        push_kind(out, counts, *number)?;
    }
    Ok(())
}

fn push_counts(out: &mut String, counts: &KindCounts) -> Result<(), AllocError>
    ensures { OnOk result (Adds (string_bytes out.old) (string_bytes out.new) (counts_text counts.now)) }
{
    push_value(out, "Faults: ", &counts.all)?;
    push_text(out, " in all")?;
    push_kinds(out, counts, &[1u8, 2, 3, 4, 5, 6, 7, 8, 9, 10, 11, 12])?;
    push_text(out, "\n")
}

/// The line of how many faults there are, and of which kinds.
pub(crate) fn line_of(alloc: Global, counts: &KindCounts) -> Result<String, AllocError>
    ensures { (told : List Named) → AreKinds told counts.now → IfOk result (λ line. string_bytes line ≡ counts_line told) }
{
    let mut line = String::new(alloc);
    push_counts(&mut line, counts)?;
    Ok(line)
}
