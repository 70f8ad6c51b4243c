//! Phases 2 and 3: the transaction log, and its decisions against the partitions' logs.

use crate::cases;
use crate::page::Page;

/// Phase 2: the transaction log.
pub(crate) static TRANSACTION_LOG: [Page; 5] = [
    Page {
        code: "2.1",
        name: "BadRecord",
        cases: &[],
        brief: &["a record of __transaction_state doesn't read"],
        says: "A record of __transaction_state doesn't read: `record` names the first test
that failed.",
        means: "What the coordinator decided there isn't known.",
        causes: "- A newer version of the record than 1 (record=Version).
- Bytes that were changed or written by another tool.",
        next: "`eoscheck dump --decode` of the segment shows the record beside its
neighbours.",
    },
    Page {
        code: "2.2",
        name: "Step",
        cases: &[],
        brief: &["a transaction's state may not follow the one before"],
        says: "A state of a transactional id may not follow the one before it: `why` names
the rule.",
        means: "The id's transactions weren't run by version 2, or the coordinator's log
contradicts itself. It counts for every id in the partition, whoever's it is.",
        causes: "- why=Epoch: an older client used an id of this partition, perhaps another
  team's, in the run or in a trial before it: at the ends of its transactions
  the epoch doesn't rise. What it wrote needn't be in evidence.
- why=Order: a PrepareCommit was written and not acknowledged, and the
  transaction was aborted then (from memory of Kafka's sources): the producer
  may have heard of either end.
- A record was lost with a leader, so that a state between is missing.
- Two coordinators wrote for one transactional id after a split.",
        next: "Whose is the id, and which client has it? (`docs/EVIDENCE.md` says which ones
raise the epoch.) `eoscheck dump --decode` of the segment shows all states of
this id in order.",
    },
    Page {
        code: "2.3",
        name: "SplitId",
        cases: &[],
        brief: &["a transactional id stands in two partitions"],
        says: "One transactional id has records in two partitions of __transaction_state.",
        means: "An id lies in one partition, by its hash. Two coordinators worked for it.",
        causes: "- Logs of two clusters, or of before and after a change of the number of
  partitions, were put into one folder.",
        next: "Where was each partition copied from, and when?",
    },
    Page {
        code: "2.4",
        name: "SharedProducer",
        cases: &[],
        brief: &["two transactional ids have one producer id"],
        says: "Two transactional ids have one producer id.",
        means: "What the producer wrote can't be told apart: neither id's transactions can be
judged.",
        causes: "- Logs of two clusters in one folder.
- A coordinator that gave one producer id out twice.",
        next: "Where was each partition copied from? Compare the records' times.",
    },
    Page {
        code: "2.5",
        name: "Unfinished",
        cases: cases::UNFINISHED,
        brief: &["a transaction goes on at the end: collect later"],
        says: "At the partition's end a transactional id is ongoing, or prepared and not
complete.",
        means: "The logs end in the middle of its transaction.",
        causes: "- It was collected while a transaction was open.
- A coordinator that can't write its markers: a partition without a leader.",
        next: "Stop the application, wait for `transaction.timeout.ms`, collect again. Then
`kafka-transactions.sh describe --transactional-id ID`.",
    },
];

/// Phase 3: the decisions against the logs.
pub(crate) static DECISIONS: [Page; 7] = [
    Page {
        code: "3.1",
        name: "TwiceDecided",
        cases: &[],
        brief: &["a transaction was decided twice"],
        says: "Two decisions of one producer id and epoch.",
        means: "A transaction was decided twice, so its end depends on who is asked.",
        causes: "- A coordinator that forgot its first decision: its log lost records.
- Logs of two replicas, or of two clusters, put into one folder.",
        next: "Compare both decisions and their partitions (`dump --decode` of
__transaction_state).",
    },
    Page {
        code: "3.2",
        name: "Undecided",
        cases: &[],
        brief: &["data of a transaction that nobody decided"],
        says: "Records of a transaction have an end marker, and no decision of their producer
epoch stands in the transaction log.",
        means: "Nobody who may decide did, as far as these logs say.",
        causes: "- No partition of __transaction_state is in `ends`, or not that of this
  transactional id.
- The transaction log was compacted, or lost its end.
- An operator's abort of a hanging transaction.",
        next: "Put all partitions of __transaction_state into `ends`: which one is the id's
is a hash.",
    },
    Page {
        code: "3.3",
        name: "WrongKind",
        cases: &[],
        brief: &["data ended in another way than was decided"],
        says: "Records ended by a commit where an abort was decided, or the other way round.",
        means: "A part of the transaction is visible and another isn't: not atomic.",
        causes: "- A coordinator whose decision changed after markers were sent.
- A marker that an operator or a tool wrote.",
        next: "Compare the markers of all listed partitions; `explain` and `dump --decode`
show them.",
    },
    Page {
        code: "3.4",
        name: "NotListed",
        cases: &[],
        brief: &["data in a partition that its transaction doesn't list"],
        says: "Records of a transaction stand in a partition that its decision doesn't list.",
        means: "The partition was never added to the transaction, or the list was lost: its
marker came by another way.",
        causes: "- A broker that takes records without asking the coordinator.
- The transaction log lost the record that added the partition.",
        next: "All states of this transactional id (`dump --decode` of __transaction_state).",
    },
    Page {
        code: "3.5",
        name: "StrayMarker",
        cases: &[],
        brief: &["an end marker that nobody decided"],
        says: "An end marker of no decision that lists its partition.",
        means: "Something was ended that nobody decided, as far as these logs say.",
        causes: "- The same as of 3.2: a partition of __transaction_state isn't in `ends`, or
  compacted.
- A marker that an operator wrote.",
        next: "Put all partitions of __transaction_state into `ends`; then look who wrote the
marker.",
    },
    Page {
        code: "3.6",
        name: "AbsentPartition",
        cases: &[],
        brief: &["a transaction lists a partition that isn't in `ends`"],
        says: "A decision lists a partition that isn't in `ends`.",
        means: "What the transaction wrote there isn't known, so it can't be called whole.",
        causes: "- Its topic was deleted, in the run or in a trial before it: what was decided
  before stays in the transaction log.
- A partition was forgotten, often the group's of __consumer_offsets.
- Another application writes under the same transaction log; its partitions
  belong in too.",
        next: "Is the topic still there (`kafka-topics.sh --list`)? If so, add the partition
to `ends` and copy it: `eoscheck init` finds all that have a folder. If not,
these logs can't be judged: run on a fresh cluster.",
    },
    Page {
        code: "3.7",
        name: "MissingMarker",
        cases: cases::MISSING_MARKER,
        brief: &["a listed partition lacks the end marker"],
        says: "A decision lists a partition, and its end marker doesn't stand there.",
        means: "The transaction was decided and not ended everywhere: readers of that
partition wait, or never see it.",
        causes: "- Its topic was deleted and made again, in the run or in a trial before: the
  new log has nothing of earlier transactions.
- It was collected between the decision and the last marker.
- The partition's log lost the marker, or never got it.",
        next: "Is the topic younger than the decision? Compare the partition on the other
replicas; collect again after the cluster rests.",
    },
];
