//! Phase 1: a partition's log by itself.

use crate::cases;
use crate::page::Page;

pub(crate) static PARTITIONS: [Page; 11] = [
    Page {
        code: "1.1",
        name: "BadBatch",
        cases: &[],
        brief: &["no batch begins there: see `eoscheck dump --help`"],
        says: "At `byte` of the segment no record batch begins: `batch` names the first test
that failed. All batches before it were read, up to `offset`.",
        means: "The file isn't what a broker would serve from there on. Of what lies behind
that byte nothing is said.",
        causes: "- Truncated: the segment was copied while it was written, or cut short by the
  copy.
- Length: the file is preallocated and ends in zeros; the broker wasn't
  stopped cleanly.
- Compressed: a producer compresses, or the topic's `compression.type` does.
- Crc, Record and the others: a broken disk or copy, or no segment at all.",
        next: "Copy the segment again, from a stopped broker or another replica, and compare
sizes. For Compressed: set `compression.type=uncompressed` for the topic
before the run. `eoscheck dump SEGMENT` lists what stands before the place.",
    },
    Page {
        code: "1.2",
        name: "Gap",
        cases: cases::GAP,
        brief: &[
            "another offset or segment than the next: a lost or",
            "misnamed file, or a compacted log",
        ],
        says: "The next batch, or the next segment by its name, begins at `found` and not at
`offset`.",
        means: "Offsets are missing or stand twice. A log that is judged begins at 0 and has
no gap, since a gap could hide anything.",
        causes: "- offset=0: retention has removed the first segments, or they weren't copied.
- In the middle: a segment wasn't copied, or has another name than the broker
  gave it.
- __transaction_state, __consumer_offsets: the log was compacted.
- Rarely: the broker lost records.",
        next: "List the partition's folder on each replica. Before a run: `retention.ms=-1`,
`retention.bytes=-1`, and `cleanup.policy=delete` also for the two internal
topics.",
    },
    Page {
        code: "1.3",
        name: "FirstSequence",
        cases: &[],
        brief: &["a producer's epoch doesn't begin at sequence 0"],
        says: "The first batch of a producer's epoch doesn't begin at sequence 0.",
        means: "Records of that epoch before it are missing, or the broker took a batch that
it had to refuse.",
        causes: "- The topic was deleted and made again while the producer lived: it counts on,
  and the new log knows nothing of it (from memory of Kafka's sources).
- The epoch's first records were lost with a leader, and the next one had no
  state of the producer.
- A segment of a longer log is taken for a whole partition (`chain` does so).",
        next: "Is the topic younger than the producer? Look with `eoscheck dump` what the
producer wrote before; compare the replicas; look in the broker's log for the
loading of producer snapshots.",
    },
    Page {
        code: "1.4",
        name: "Sequence",
        cases: &[],
        brief: &["a sequence is missing or repeated"],
        says: "A batch's base sequence isn't the one after the last sequence of its producer
epoch.",
        means: "A smaller one: records stand twice, a retry was taken as new. A greater one:
records between are missing.",
        causes: "- A broker that doesn't drop repeated batches after a restart or a change of
  leader.
- Records that were acknowledged and lost (unclean election, `acks` other than
  all).
- A proxy or a mirror that writes batches again.",
        next: "Compare the two batches' values: equal ones stand twice. Compare the replicas,
and look for an unclean leader election at that time.",
    },
    Page {
        code: "1.5",
        name: "ZombieEpoch",
        cases: cases::PAIR,
        brief: &["a producer wrote with an older epoch than before"],
        says: "A producer id wrote with a lower epoch than it had in this log before.",
        means: "Fencing failed: an older instance wrote after a newer one had begun.",
        causes: "- A broker that lost the producer's epoch, by a restart or a change of leader.",
        next: "Look who owned the transactional id (`dump --decode` of __transaction_state),
and whether these records were committed: they are then a second run's
outputs.",
    },
    Page {
        code: "1.6",
        name: "EpochWhileOpen",
        cases: cases::WHILE_OPEN,
        brief: &["a new epoch began while a transaction was open"],
        says: "Transactional data of a greater epoch stands where the lower epoch's
transaction has no end marker yet.",
        means: "The end marker of the earlier transaction never came into this log, or was
lost from it. The producer did nothing wrong.",
        causes: "- This replica's log lacks the marker: a truncation, or a leader that never
  had it.
- The coordinator took the transaction for complete too early.",
        next: "Compare the same offsets on the other replicas. Look at the decision in
__transaction_state, and at the broker's log for a truncation. Was this the
leader?",
    },
    Page {
        code: "1.7",
        name: "NoBump",
        cases: cases::NO_BUMP,
        brief: &[
            "an end marker has the epoch of its data: transaction",
            "version 2 was off",
        ],
        says: "An end marker has the epoch of its data, not a greater one.",
        means: "The transaction ran by version 1: a late batch of it can't be told from the
next transaction's, so a fenced log can't be promised.",
        causes: "- An older client: version 2 needs the client as well as the broker.
- The cluster's feature `transaction.version` is below 2.
- It counts for every transactional id in the given partitions, not only the
  application's.",
        next: "`kafka-features.sh describe`; the client's version (Kafka 4.0 or its like).",
    },
    Page {
        code: "1.8",
        name: "MixedProducer",
        cases: &[],
        brief: &["a producer wrote both inside and outside transactions"],
        says: "One producer id wrote inside and outside of transactions.",
        means: "A producer is one or the other for life: here two clients share an id, or
bytes were written by hand.",
        causes: "- A proxy or a tool that rewrites batches.
- A broker that gave one producer id out twice.",
        next: "Look in __transaction_state which transactional id has this producer id, and
at the two batches with `eoscheck dump`.",
    },
    Page {
        code: "1.9",
        name: "MarkerKind",
        cases: &[],
        brief: &["one transaction has both a commit and an abort"],
        says: "Two end markers of one producer epoch, one a commit and one an abort.",
        means: "The same transaction ended in both ways: readers of committed records saw it
or not, depending on when they read.",
        causes: "- A coordinator that decided again after a change of its leader.
- A marker that an operator wrote (`kafka-transactions.sh abort`).",
        next: "Look at the decision in __transaction_state, and who wrote the second marker.",
    },
    Page {
        code: "1.10",
        name: "End",
        cases: cases::END,
        brief: &["the log has another number of records than `ends` says"],
        says: "All bytes were read, and the log has `offset` records, not `end` as the
manifest says.",
        means: "The log and the manifest don't speak of the same moment, so records may be
missing at the end.",
        causes: "- More records than the end: the end is of an earlier time. The application
  still ran, or a group wasn't empty when the ends were read: when a session
  expires, its coordinator writes once more (from memory of Kafka's sources).
- Fewer records than the end: the copy is cut. The last segment wasn't copied,
  or it was copied before its end.
- offset=0: the partition has no folder, or one with another name.",
        next: "Wait until each group is Empty, ask for the ends (`kafka-get-offsets.sh`),
copy, and ask again: equal ends mean that nothing moved. End markers and
aborted records count too.",
    },
    Page {
        code: "1.11",
        name: "OpenAtEnd",
        cases: cases::OPEN,
        brief: &["a transaction is open at the end: collect later"],
        says: "The producer id's last batch is of a transaction, and no end marker follows
it.",
        means: "Whether these records count can't be known from the log. Nothing else is wrong
with it.",
        causes: "- The logs were collected while a transaction was open.
- A transaction hangs: the coordinator never wrote its marker to this
  partition.",
        next: "Collect again after `transaction.timeout.ms`. If it still is open, look with
`kafka-transactions.sh find-hanging`, and at the coordinator's log.",
    },
];
