//! The commits of all applications, or of one group, tabled by their groups in one walk over the logs.

ghost use Rattle.std.specs.Prelude.{◌≡◌, ◌++◌, ◌≤◌, ◌<◌, ℕ, List, [], ◌∷◌, map, length, option_map, slice_index_or, true, false, IfOk, OnOk, IsSorted, MatchBool};
ghost use Rattle.std.specs.Option.{option_to_list};
ghost use Rattle.std.specs.Ordering.{is_lt, nat_cmp};
ghost use Rattle.std.specs.Cmp.Lexicographic.{slice_cmp};
ghost use Rattle.std.specs.List.{filter};
ghost use Rattle.eos_base.specs.Members.{Has};
ghost use Rattle.eos_evidence.specs.declared.application.App.{App};
ghost use Rattle.eos_fold.specs.Parts.{PartLog};
ghost use Rattle.eos_claims.specs.Outputs.{committed_offset};
ghost use Rattle.eos_commits.specs.Commits.{Group, key_of, commits_of as commits_in_log};
ghost use Rattle.eos_commits.specs.EpochCommits.{epoch_commits_of};
ghost use Rattle.eos_commits.specs.Plain.{plain_commit, epoch_commit};
ghost use Rattle.eos_commits.specs.Tables.{IsTableOf, pick_of_topics, picked};
ghost use Rattle.eos_commits.specs.steps.Entries.{AreEntriesOf, by_group, entries_at, entries_by, entry_at as entry_in, entry_under, is_read, is_under, plain_entry};

use crate::commits::{CommitRef, commit_with, last_committed};
use crate::roles::{Roles, TopicSet};
use crate::visible::{is_of_offsets, is_same, is_visible};
use bytes::Bytes;
use eos_evidence::App;
use eos_kept::{ItemRef, Part};
use eos_offsets::view_key;
use std::alloc::{AllocError, Global};
use std::marker::Model;

/// A commit and its group. Both are lent.
#[derive(Clone, Copy)]
pub(crate) struct Entry<'a> {
    pub(crate) group: &'a [u8],
    pub(crate) commit: CommitRef<'a>,
}

/// The commits of the groups of applications, which contracts see as a list: by group, those of one in the order of the log.
#[derive(Drop)]
pub struct CommitTable<'a> {
    entries: Vec<Entry<'a>>,
}

impl<'a> Model for CommitTable<'a> {
    ghost use Rattle.std.specs.Prelude.{List, map, IsSorted};
    ghost use Rattle.eos_commits.specs.Tables.{Tabled};
    ghost use Rattle.eos_commits.specs.steps.Entries.{by_group, plain_entry};

    ghost Value = { List Tabled };

    ghost view = { λ t. map plain_entry t.entries.items };

    ghost invariant = { λ t. IsSorted by_group t.entries.items };
}

/// The commit with its group, if there is one.
fn grouped<'a>(group: &'a [u8], commit: Option<CommitRef<'a>>) -> Option<Entry<'a>>
    ensures { option_to_list (option_map plain_entry result) ≡ map (λ c. (group.now, c)) (option_to_list (option_map epoch_commit commit.entry)) }
{
    match commit {
        None => None,
        Some(commit) => Some(Entry { group, commit }),
    }
}

/// The entry that a visible record of the offsets log is, if it is one.
fn entry_of<'a>(roles: &Roles<'_>, item: &ItemRef<'a>) -> Option<Entry<'a>>
    ensures { option_to_list (option_map plain_entry result) ≡ entry_under (is_read roles.now.sources) (key_of item.entry.now) item.entry.now }
{
    let Ok(Some(key)) = view_key(item.key()?) else {
        return None;
    };
    if roles.is_source(key.group, key.topic) {
        let group = key.group;
        grouped(group, commit_with(key, item.value(), item.writer()))
    } else {
        None
    }
}

/// The entry that a record of the offsets log is, if it is one.
fn entry_at<'a>(roles: &Roles<'_>, item: &ItemRef<'a>) -> Option<Entry<'a>>
    ensures { option_to_list (option_map plain_entry result) ≡ entry_in (is_read roles.now.sources) item.entry.now }
{
    if is_visible(item.fate()) {
        entry_of(roles, item)
    } else {
        None
    }
}

/// Puts the entry at the end that a record of the offsets log is, if it is one.
fn push_entry<'a>(
    all: &mut Vec<Entry<'a>>,
    roles: &Roles<'_>,
    item: &ItemRef<'a>,
) -> Result<(), AllocError>
    ensures { OnOk result (map plain_entry all.new.items ≡ map plain_entry all.old.items ++ entry_in (is_read roles.now.sources) item.now) }
{
    if let Some(entry) = entry_at(roles, item) {
        all.push(entry)?;
    }
    Ok(())
}

/// Puts a partition's entries at the end.
fn push_entries<'a>(
    all: &mut Vec<Entry<'a>>,
    roles: &Roles<'_>,
    part: &'a Part,
) -> Result<(), AllocError>
    ensures { OnOk result (map plain_entry all.new.items ≡ map plain_entry all.old.items ++ entries_at (is_read roles.now.sources) part.now) }
{
    if !is_of_offsets(part) {
        return Ok(());
    }
    let mut records = part.items().cursor();
    while let Some(item) = records.next() {
        push_entry(all, roles, &item)?;
    }
    Ok(())
}

/// The entries of all partitions, in the order of the log.
fn all_entries<'a>(
    alloc: Global,
    roles: &Roles<'_>,
    parts: &'a [Part],
) -> Result<Vec<Entry<'a>>, AllocError>
    ensures { IfOk result (λ all. map plain_entry all.items ≡ entries_by (is_read roles.now.sources) parts.now) }
{
    let mut all = Vec::new(alloc);
    for part in parts {
        push_entries(&mut all, roles, part)?;
    }
    Ok(all)
}

/// The entries by their groups, those of one group in the order in which they stood.
fn sorted_by_group<'a>(mut entries: Vec<Entry<'a>>) -> Result<Vec<Entry<'a>>, AllocError>
    ensures sorted { IfOk result (λ all. IsSorted by_group all.items) }
    ensures stable { IfOk result (λ all. (group : Group) → filter (is_under group) all.items ≡ filter (is_under group) entries.entry.items) }
{
    entries.sort_by_key(|entry| entry.group)?;
    Ok(entries)
}

fn is_before(entry: &Entry<'_>, group: &[u8]) -> bool
    ensures { result ≡ is_lt (slice_cmp nat_cmp entry.now.group.now group.now) }
{
    entry.group.cmp(group).is_lt()
}

/// How many entries are of groups before this one: a search by halves.
fn count_before(entries: &[Entry<'_>], group: &[u8]) -> usize
    requires { IsSorted by_group entries.now }
    ensures bound { result ≤ length entries.now }
    ensures before { (k : ℕ) (d : Entry) → k < result → is_lt (slice_cmp nat_cmp (slice_index_or entries.now k d).group.now group.now) ≡ true }
    ensures from { (k : ℕ) (d : Entry) → result ≤ k → k < length entries.now → is_lt (slice_cmp nat_cmp (slice_index_or entries.now k d).group.now group.now) ≡ false }
{
    let mut low = 0;
    let mut high = entries.len();
    while low < high {
        let middle = low + (high - low) / 2;
        if is_before(&entries[middle], group) {
            low = middle + 1;
        } else {
            high = middle;
        }
    }
    low
}

/// Puts the entry's commit at the end, if it is of one of these topics.
fn push_of_topics<'a>(
    all: &mut Vec<CommitRef<'a>>,
    sources: &TopicSet<'_>,
    entry: &Entry<'a>,
) -> Result<(), AllocError>
    ensures { OnOk result (map epoch_commit all.new.items ≡ map epoch_commit all.old.items ++ pick_of_topics sources.now (plain_entry entry.now)) }
{
    if sources.has(entry.commit.topic) {
        all.push(entry.commit)?;
    }
    Ok(())
}

/// Whether the entry at this place is of this group.
fn is_of_group_at(entries: &[Entry<'_>], at: usize, group: &[u8]) -> bool
    ensures { MatchBool result ((at < length entries.now) × ((d : Entry) → is_under group.now (slice_index_or entries.now at d) ≡ true))
        (at < length entries.now → (d : Entry) → is_under group.now (slice_index_or entries.now at d) ≡ false) }
{
    at < entries.len() && is_same(group, entries[at].group)
}

/// The commits of a group and a set of topics among these.
fn commits_from<'a>(
    alloc: Global,
    entries: &[Entry<'a>],
    group: &[u8],
    sources: &TopicSet<'_>,
) -> Result<Vec<CommitRef<'a>>, AllocError>
    requires { IsSorted by_group entries.now }
    ensures { IfOk result (λ all. map epoch_commit all.items ≡ picked group.now sources.now (map plain_entry entries.now)) }
{
    let mut all = Vec::new(alloc);
    let mut at = count_before(entries, group);
    while is_of_group_at(entries, at, group) {
        push_of_topics(&mut all, sources, &entries[at])?;
        at += 1;
    }
    Ok(all)
}

/// The entries of all partitions by their groups, those of one group in the order of the log.
fn entries_of<'a>(
    alloc: Global,
    roles: &Roles<'_>,
    parts: &'a [Part],
) -> Result<Vec<Entry<'a>>, AllocError>
    ensures sorted { IfOk result (λ all. IsSorted by_group all.items) }
    ensures entries { IfOk result (λ all. AreEntriesOf (is_read roles.now.sources) parts.now all.items) }
{
    let entries = all_entries(alloc, roles, parts)?;
    sorted_by_group(entries)
}

/// The commits of a group and these topics among these entries.
fn picked_of<'a>(
    alloc: Global,
    entries: &[Entry<'a>],
    group: &[u8],
    sources: &[Bytes],
) -> Result<Vec<CommitRef<'a>>, AllocError>
    requires { IsSorted by_group entries.now }
    ensures { IfOk result (λ all. map epoch_commit all.items ≡ picked group.now sources.now (map plain_entry entries.now)) }
{
    let set = TopicSet::of(alloc, sources)?;
    commits_from(alloc, entries, group, &set)
}

impl<'a> CommitTable<'a> {
    /// The commits of these applications' groups, of the topics that they read: one walk over the logs for all of them.
    ///
    /// # Errors
    /// Only want of memory.
    pub fn of(alloc: Global, apps: &[App], parts: &'a [Part]) -> Result<CommitTable<'a>, AllocError>
        ensures { IfOk result (λ table. IsTableOf apps.now parts.now table) }
    {
        let roles = Roles::of(alloc, apps)?;
        let entries = entries_of(alloc, &roles, parts)?;
        Ok(CommitTable { entries })
    }

    /// The commits of one application's group, as `commits_of` gives them for its group and sources.
    ///
    /// # Errors
    /// Only want of memory.
    pub fn commits_of(&self, alloc: Global, app: &App) -> Result<Vec<CommitRef<'a>>, AllocError>
        ensures commits { (apps : List App) (parts : List PartLog) → IsTableOf apps parts self.now → Has apps app.now
            → IfOk result (λ all. map plain_commit all.items ≡ commits_in_log app.now.group app.now.sources parts) }
        ensures epochs { (apps : List App) (parts : List PartLog) → IsTableOf apps parts self.now → Has apps app.now
            → IfOk result (λ all. map epoch_commit all.items ≡ epoch_commits_of app.now.group app.now.sources parts) }
    {
        let entries = self.entries.as_slice();
        picked_of(alloc, entries, app.group.as_bytes(), app.sources.as_slice())
    }
}

/// The commits of a group that reads these topics, in the order of the log: of each visible record of
/// `__consumer_offsets` whose key names the group and one of the topics and whose value reads.
///
/// # Errors
/// Only want of memory.
pub fn commits_of<'a>(
    alloc: Global,
    group: &[u8],
    sources: &[Bytes],
    parts: &'a [Part],
) -> Result<Vec<CommitRef<'a>>, AllocError>
    ensures commits { IfOk result (λ all. map plain_commit all.items ≡ commits_in_log group.now sources.now parts.now) }
    ensures epochs { IfOk result (λ all. map epoch_commit all.items ≡ epoch_commits_of group.now sources.now parts.now) }
{
    let roles = Roles::of_group(alloc, group, sources)?;
    let entries = entries_of(alloc, &roles, parts)?;
    picked_of(alloc, entries.as_slice(), group, sources)
}

/// The committed offset of a partition for a group: the offset in the last visible record of `__consumer_offsets` that
/// commits one of it, and 0 where there is none. Records whose value doesn't read are left out; where no fault of the
/// offsets log stands there are none.
///
/// # Errors
/// Only want of memory.
pub fn committed(
    alloc: Global,
    parts: &[Part],
    group: &[u8],
    topic: &Bytes,
    partition: i32,
) -> Result<i64, AllocError>
    ensures { IfOk result (λ offset. offset ≡ committed_offset (commits_in_log group.now (topic.now ∷ []) parts.now) (record { topic = topic.now; partition = partition })) }
{
    let commits = commits_of(alloc, group, std::slice::from_ref(topic), parts)?;
    Ok(last_committed(commits.as_slice(), topic.as_slice(), partition))
}
