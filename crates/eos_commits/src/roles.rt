//! Which topics the applications read and write, as sets in which names are looked up. Names are lent.

ghost use Rattle.std.specs.Prelude.{◌≡◌, ◌++◌, [], ◌∷◌, map, flat_map, IfOk, OnOk, IsPermutation, IsSorted};
ghost use Rattle.std.specs.Ordering.{nat_cmp};
ghost use Rattle.std.specs.Cmp.Lexicographic.{slice_cmp};
ghost use Rattle.eos_base.specs.Members.{is_found};
ghost use Rattle.eos_evidence.specs.SpecFields.{outputs_of};
ghost use Rattle.eos_commits.specs.steps.Roles.{source_cmp, sources_of, plain_topic, by_topic, plain_source, by_source, sources_under};

use bytes::Bytes;
use eos_base::{holds, in_order};
use eos_evidence::App;
use std::alloc::{AllocError, Global};
use std::marker::Model;

/// A topic, lent.
#[derive(Clone, Copy, PartialEq, Eq, PartialOrd, Ord)]
pub(crate) struct TopicRef<'a> {
    pub topic: &'a [u8],
}

/// A group and a topic that it reads, lent.
#[derive(Clone, Copy, PartialEq, Eq, PartialOrd, Ord)]
pub(crate) struct SourceRef<'a> {
    pub group: &'a [u8],
    pub topic: &'a [u8],
}

/// Puts these topics at the end.
fn push_topics<'a>(all: &mut Vec<TopicRef<'a>>, topics: &'a [Bytes]) -> Result<(), AllocError>
    ensures { OnOk result (map plain_topic all.new.items ≡ map plain_topic all.old.items ++ topics.now) }
{
    for topic in topics {
        all.push(TopicRef {
            topic: topic.as_slice(),
        })?;
    }
    Ok(())
}

/// Puts the topics that a group reads at the end, each with the group.
fn push_sources<'a>(
    all: &mut Vec<SourceRef<'a>>,
    group: &'a [u8],
    topics: &'a [Bytes],
) -> Result<(), AllocError>
    ensures { OnOk result (map plain_source all.new.items ≡ map plain_source all.old.items ++ sources_under group.now topics.now) }
{
    for topic in topics {
        all.push(SourceRef {
            group,
            topic: topic.as_slice(),
        })?;
    }
    Ok(())
}

fn all_outputs<'a>(alloc: Global, apps: &'a [App]) -> Result<Vec<TopicRef<'a>>, AllocError>
    ensures { IfOk result (λ all. map plain_topic all.items ≡ outputs_of apps.now) }
{
    let mut all = Vec::new(alloc);
    for app in apps {
        push_topics(&mut all, app.outputs.as_slice())?;
    }
    Ok(all)
}

fn all_sources<'a>(alloc: Global, apps: &'a [App]) -> Result<Vec<SourceRef<'a>>, AllocError>
    ensures { IfOk result (λ all. map plain_source all.items ≡ sources_of apps.now) }
{
    let mut all = Vec::new(alloc);
    for app in apps {
        push_sources(&mut all, app.group.as_bytes(), app.sources.as_slice())?;
    }
    Ok(all)
}

/// Whether the topic is among these, which are in order.
fn is_topic_in(keys: &[TopicRef<'_>], key: &TopicRef<'_>) -> bool
    requires { IsSorted by_topic keys.now }
    ensures { result ≡ is_found (slice_cmp nat_cmp) (map plain_topic keys.now) (plain_topic key.now) }
{
    holds(keys, key)
}

/// Whether the group and topic are among these, which are in order.
fn is_source_in(keys: &[SourceRef<'_>], key: &SourceRef<'_>) -> bool
    requires { IsSorted by_source keys.now }
    ensures { result ≡ is_found source_cmp (map plain_source keys.now) (plain_source key.now) }
{
    holds(keys, key)
}

/// A set of topics, which contracts see as the list of them, in order.
#[derive(Drop)]
pub struct TopicSet<'a> {
    topics: Vec<TopicRef<'a>>,
}

impl<'a> Model for TopicSet<'a> {
    ghost use Rattle.std.specs.Prelude.{ℕ, List, map, IsSorted};
    ghost use Rattle.eos_commits.specs.steps.Roles.{plain_topic, by_topic};

    ghost Value = { List (List ℕ) };

    ghost view = { λ s. map plain_topic s.topics.items };

    ghost invariant = { λ s. IsSorted by_topic s.topics.items };
}

impl<'a> TopicSet<'a> {
    fn new(topics: Vec<TopicRef<'a>>) -> TopicSet<'a>
        ensures { IsPermutation (map plain_topic topics.entry.items) result }
    {
        TopicSet {
            topics: in_order(topics),
        }
    }

    /// The set of these topics.
    ///
    /// # Errors
    /// Only want of memory.
    pub fn of(alloc: Global, topics: &'a [Bytes]) -> Result<TopicSet<'a>, AllocError>
        ensures { IfOk result (λ set. IsPermutation topics.now set) }
    {
        let mut all = Vec::new(alloc);
        push_topics(&mut all, topics)?;
        Ok(TopicSet::new(all))
    }

    /// Whether it has this topic.
    pub fn has(&self, topic: &[u8]) -> bool
        ensures { result ≡ is_found (slice_cmp nat_cmp) self.now topic.now }
    {
        is_topic_in(self.topics.as_slice(), &TopicRef { topic })
    }
}

/// Groups and topics that they read, which contracts see as the list of these pairs, in order.
#[derive(Drop)]
pub(crate) struct SourceSet<'a> {
    pairs: Vec<SourceRef<'a>>,
}

impl<'a> Model for SourceSet<'a> {
    ghost use Rattle.std.specs.Prelude.{List, map, IsSorted};
    ghost use Rattle.eos_commits.specs.steps.Roles.{Source, plain_source, by_source};

    ghost Value = { List Source };

    ghost view = { λ s. map plain_source s.pairs.items };

    ghost invariant = { λ s. IsSorted by_source s.pairs.items };
}

impl<'a> SourceSet<'a> {
    fn new(pairs: Vec<SourceRef<'a>>) -> SourceSet<'a>
        ensures { IsPermutation (map plain_source pairs.entry.items) result }
    {
        SourceSet {
            pairs: in_order(pairs),
        }
    }

    /// What these applications read.
    fn of(alloc: Global, apps: &'a [App]) -> Result<SourceSet<'a>, AllocError>
        ensures { IfOk result (λ set. IsPermutation (sources_of apps.now) set) }
    {
        let pairs = all_sources(alloc, apps)?;
        Ok(SourceSet::new(pairs))
    }

    /// What a group reads.
    fn of_group(
        alloc: Global,
        group: &'a [u8],
        topics: &'a [Bytes],
    ) -> Result<SourceSet<'a>, AllocError>
        ensures { IfOk result (λ set. IsPermutation (sources_under group.now topics.now) set) }
    {
        let mut pairs = Vec::new(alloc);
        push_sources(&mut pairs, group, topics)?;
        Ok(SourceSet::new(pairs))
    }

    /// Whether this is an application's group and one of its source topics.
    fn has(&self, group: &[u8], topic: &[u8]) -> bool
        ensures { result ≡ is_found source_cmp self.now (group.now, topic.now) }
    {
        is_source_in(self.pairs.as_slice(), &SourceRef { group, topic })
    }
}

/// What the applications read and write.
#[derive(Drop)]
pub(crate) struct Roles<'a> {
    sources: SourceSet<'a>,
    outputs: TopicSet<'a>,
}

impl<'a> Model for Roles<'a> {
    ghost use Rattle.eos_commits.specs.steps.Roles.{RoleSets};

    ghost Value = { RoleSets };

    ghost view = { λ r. record { sources = r.sources; outputs = r.outputs } };
}

impl<'a> Roles<'a> {
    /// What these applications read and write.
    pub(crate) fn of(alloc: Global, apps: &'a [App]) -> Result<Roles<'a>, AllocError>
        ensures sources { IfOk result (λ r. IsPermutation (sources_of apps.now) r.sources) }
        ensures outputs { IfOk result (λ r. IsPermutation (outputs_of apps.now) r.outputs) }
    {
        let sources = SourceSet::of(alloc, apps)?;
        let outputs = all_outputs(alloc, apps)?;
        Ok(Roles {
            sources,
            outputs: TopicSet::new(outputs),
        })
    }

    /// What a group reads, and no output.
    pub(crate) fn of_group(
        alloc: Global,
        group: &'a [u8],
        topics: &'a [Bytes],
    ) -> Result<Roles<'a>, AllocError>
        ensures { IfOk result (λ r. IsPermutation (sources_under group.now topics.now) r.sources) }
    {
        let sources = SourceSet::of_group(alloc, group, topics)?;
        Ok(Roles {
            sources,
            outputs: TopicSet::new(Vec::new(alloc)),
        })
    }

    /// Whether this is an application's group and one of its source topics.
    pub(crate) fn is_source(&self, group: &[u8], topic: &[u8]) -> bool
        ensures { result ≡ is_found source_cmp self.now.sources (group.now, topic.now) }
    {
        self.sources.has(group, topic)
    }

    /// Whether an application writes to this topic.
    pub(crate) fn is_output(&self, topic: &[u8]) -> bool
        ensures { result ≡ is_found (slice_cmp nat_cmp) self.now.outputs topic.now }
    {
        self.outputs.has(topic)
    }
}
