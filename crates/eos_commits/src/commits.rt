//! The offsets that a consumer group has committed.

ghost use Rattle.std.specs.Prelude.{◌≡◌, map, option_map};
ghost use Rattle.std.specs.Option.{option_to_list};
ghost use Rattle.std.specs.Ordering.{is_eq};
ghost use Rattle.eos_base.specs.PartitionNames.{name_cmp};
ghost use Rattle.eos_offsets.specs.Reading.{read_value};
ghost use Rattle.eos_offsets.specs.Views.{plain_key};
ghost use Rattle.eos_claims.specs.Outputs.{committed_offset};
ghost use Rattle.eos_commits.specs.Commits.{commit_with as commit_valued};
ghost use Rattle.eos_commits.specs.EpochCommits.{under, epoch_in};
ghost use Rattle.eos_commits.specs.Plain.{plain_commit, epoch_commit};

use eos_offsets::{KeyRef, view_leader_epoch, view_value};

/// An offset that a group has committed for a partition that it reads. The topic is lent.
#[derive(Clone, Copy)]
pub struct CommitRef<'a> {
    pub topic: &'a [u8],
    pub partition: i32,
    /// The offset of the next record to read.
    pub offset: i64,
    /// The leader epoch of the last record read, -1 for none.
    pub leader_epoch: i32,
    /// The producer id and epoch of the transaction in which it was committed, if it was in one.
    pub writer: Option<(i64, i16)>,
}

/// The commit of this key, where its value reads.
pub(crate) fn commit_with<'a>(
    key: KeyRef<'a>,
    value: Option<&[u8]>,
    writer: Option<(i64, i16)>,
) -> Option<CommitRef<'a>>
    ensures { option_to_list (option_map epoch_commit result)
        ≡ map (under (epoch_in (option_map (λ s. s.now) value.entry))) (commit_valued (plain_key key.entry) (option_map read_value (option_map (λ s. s.now) value.entry)) writer) }
{
    let value = value?;
    match view_value(value) {
        Err(_) => None,
        Ok(offset) => Some(CommitRef {
            topic: key.topic,
            partition: key.partition,
            offset,
            leader_epoch: view_leader_epoch(value),
            writer,
        }),
    }
}

/// Whether the commit is of this partition.
fn is_for(commit: &CommitRef<'_>, topic: &[u8], partition: i32) -> bool
    ensures { result ≡ is_eq (name_cmp (plain_commit commit.now).partition (record { topic = topic.now; partition = partition })) }
{
    commit
        .topic
        .cmp(topic)
        .then(commit.partition.cmp(&partition))
        .is_eq()
}

/// The committed offset of a partition by these commits, which stand in the order of their log: the offset of the last one
/// of it, and 0 where there is none.
pub fn last_committed(commits: &[CommitRef<'_>], topic: &[u8], partition: i32) -> i64
    ensures { result ≡ committed_offset (map plain_commit commits.now) (record { topic = topic.now; partition = partition }) }
{
    let mut last = 0;
    for commit in commits {
        if is_for(commit, topic, partition) {
            last = commit.offset;
        }
    }
    last
}
