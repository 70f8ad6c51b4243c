//! Phase 4: single visible records.

use crate::cases;
use crate::page::Page;

pub(crate) static RECORDS: [Page; 4] = [
    Page {
        code: "4.1",
        name: "BadLineage",
        cases: cases::LINEAGE,
        brief: &["an output record lacks a lineage header, or it is wrong"],
        says: "A visible record of an output topic doesn't say of which input it is: one of
the five headers is absent, null, repeated, of another length, or below 0.",
        means: "The output can't be matched with an input. The others weren't judged yet.",
        causes: "- Numbers written as text (\"2\" in place of four bytes), or an offset of four
  bytes.
- The input's headers are forwarded beside the output's own, so each stands
  twice.
- At a late offset: somebody else writes to the topic, by hand, by a tool, by
  an older version of the application.",
        next: "`eoscheck dump --decode --headers` of the segment, at the offset.
`docs/APPLICATION.md` has the headers and code for them.",
    },
    Page {
        code: "4.2",
        name: "BadOffset",
        cases: &[],
        brief: &["a record of __consumer_offsets doesn't read"],
        says: "A visible record of __consumer_offsets doesn't read: `record` names the first
test that failed.",
        means: "What was committed there isn't known.",
        causes: "- record=Version: a newer broker wrote a newer version of the value than 3.
- Bytes that were changed or written by another tool.",
        next: "Of which version are the brokers? `eoscheck dump --decode` of the segment, at
the offset.",
    },
    Page {
        code: "4.3",
        name: "SplitGroup",
        cases: &[],
        brief: &["a group's offsets stand in two partitions"],
        says: "One group has commits in two partitions of __consumer_offsets.",
        means: "A group lies in one partition, by its hash. Which commit is the last can't be
said.",
        causes: "- Logs of two clusters, or of before and after a change of the number of
  partitions, were put into one folder.",
        next: "Where was each partition copied from, and when?",
    },
    Page {
        code: "4.4",
        name: "OffsetDeleted",
        cases: &[],
        brief: &["a committed offset was deleted"],
        says: "A tombstone stands under a committed offset of a group that is judged.",
        means: "From there on the group would begin anew, so its committed offsets say
nothing.",
        causes: "- The group or its topic was deleted in a trial before the run, or in it: the
  coordinator then deletes the offsets (from memory of Kafka's sources).
- The group's offsets expired (`offsets.retention.minutes`, the group was
  empty).
- A tool deleted them (`kafka-consumer-groups.sh --delete-offsets`).",
        next: "At the log's begin it is of a trial: run on a fresh cluster, or with a group
of another name. Was the group empty for days? Raise the retention before a
run.",
    },
];
