//! What the rows of each kind may show, the first that holds first.

use crate::case::{Case, Sign};

const ANOTHERS_MARKER: Case = Case {
    sign: Sign::AnothersMarker,
    when: "An end marker's epoch is above the one after its data's",
    means: "That end marker is of another, later transaction: it stands in the place of
this one's own.",
    next: "Compare the marker on the other replicas. Who wrote it: a coordinator, or a
tool that ends hanging transactions?",
};

const WONT_COME: Case = Case {
    sign: Sign::LostMarker,
    when: "The transaction is complete, and a partition that it lists lacks its marker",
    means: "It won't end by waiting: the coordinator has written all its markers, as it
says, and this one is lost.",
    next: "Compare that partition on the other replicas; look in the broker's log for a
truncation. Was this replica the leader?",
};

const OUTSIDE: Case = Case {
    sign: Sign::OutsideTransactions,
    when: "The output is of no transaction",
    means: "The output was written outside any transaction: by a second producer, a tool
or a hand.",
    next: "Which producer sends it? The one that sends the offsets
(`sendOffsetsToTransaction`) has to send the outputs too.",
};

const LAST_FOR_NEXT: Case = Case {
    sign: Sign::LastForNext,
    when: "The output's own transaction committed exactly the input's offset",
    means: "The last offset was committed in place of the next one: a committed offset is
where the group goes on, the last that was read plus one.",
    next: "Where does the application make its offsets? `offset + 1` is owed
(`docs/APPLICATION.md`).",
};

const LOST_COMMIT: Case = Case {
    sign: Sign::LostCommit,
    when: "The output's transaction lists a partition of offsets that lacks its commit",
    means: "Its commit is lost: the transaction lists that partition of the offsets log,
which holds nothing of it.",
    next: "Compare that partition on the other replicas. If all lack it: was the commit
refused (`sendOffsetsToTransaction`), and the transaction ended all the same?",
};

pub(crate) const GAP: &[Case] = &[
    Case {
        sign: Sign::Renamed,
        when: "A segment has the name that is due, and its first batch another offset",
        means: "The file was renamed, or another log's file stands in its place.",
        next: "Which offset does its first batch have (`dump`)? The broker names a segment by
it, in 20 digits. Copy it again under that name.",
    },
    Case {
        sign: Sign::BeginsLater,
        when: "The first segment's name is above 0",
        means: "The log's first records were taken by retention, or weren't copied.",
        next: "Is there an earlier segment on the broker? If retention took it, this run
can't be judged: set `retention.ms=-1` and `retention.bytes=-1` before the
next.",
    },
];

pub(crate) const PAIR: &[Case] = &[ANOTHERS_MARKER];

pub(crate) const WHILE_OPEN: &[Case] = &[
    ANOTHERS_MARKER,
    Case {
        sign: Sign::LostMarker,
        when: "The transaction is complete, and a partition that it lists lacks its marker",
        means: "The coordinator recorded the end as complete, and that log never had the
marker, or lost it and went on. The producer did nothing wrong.",
        next: "Compare that partition on the other replicas; look in the broker's log for a
truncation. Was this replica the leader?",
    },
];

pub(crate) const NO_BUMP: &[Case] = &[
    ANOTHERS_MARKER,
    Case {
        sign: Sign::LostMarker,
        when: "The transaction is complete by a greater epoch, and that marker isn't there",
        means: "The coordinator ended it by version 2, with a greater epoch; the marker in
this log isn't the one that it decided.",
        next: "Compare the marker on the other replicas. Who wrote it: an older broker, or a
tool that ends hanging transactions?",
    },
];

pub(crate) const END: &[Case] = &[
    Case {
        sign: Sign::NoSegment,
        when: "The partition has no segment",
        means: "Its folder isn't there, or holds no file that is named as a segment is: 20
digits and `.log`.",
        next: "Does the evidence have a folder of this name, and what are its files called?
Copy it from the broker that led it.",
    },
    Case {
        sign: Sign::EndsLater,
        when: "The log goes on behind the declared end",
        means: "The end is of an earlier time than the copy: records were written in between.",
        next: "Ask for the ends after the application stands still (`kafka-get-offsets.sh`),
then copy. End markers and aborted records count too.",
    },
    Case {
        sign: Sign::EndsEarlier,
        when: "The log ends before the declared end",
        means: "The copy is cut: it was made before its last records, or lacks the last
segment.",
        next: "Copy the partition again and compare its size with the broker's.",
    },
];

pub(crate) const OPEN: &[Case] = &[WONT_COME];

pub(crate) const UNFINISHED: &[Case] = &[WONT_COME];

pub(crate) const MISSING_MARKER: &[Case] = &[Case {
    sign: Sign::LostMarker,
    when: "The transaction is complete, and a partition that it lists lacks its marker",
    means: "The coordinator recorded the end as complete, and that log never had the
marker, or lost it. To collect again later won't help.",
    next: "Compare that partition on the other replicas; look in the broker's log for a
truncation. Was this replica the leader?",
}];

pub(crate) const LINEAGE: &[Case] = &[Case {
    sign: Sign::NoProducer,
    when: "The record is of no producer id",
    means: "A tool or a hand wrote it, such as `kafka-console-producer.sh`: a
transactional application's records have a producer id.",
    next: "Who writes to this topic beside the application? Is its access limited?",
}];

pub(crate) const EARLY: &[Case] = &[
    LOST_COMMIT,
    OUTSIDE,
    LAST_FOR_NEXT,
    Case {
        sign: Sign::MovedBack,
        when: "A later commit of the group isn't past the input, as an earlier one is",
        means: "The group's offsets were moved back, by the commit that is named: a tool reset
them, where that commit is of no transaction.",
        next: "Who reset the group's offsets (`kafka-consumer-groups.sh --reset-offsets`),
and why? What the commit is of stands in its row.",
    },
    Case {
        sign: Sign::OtherGroup,
        when: "Another group committed past the input, and this one never did",
        means: "Most likely the manifest names another group than ran.",
        next: "Set `group` of evidence.json to the one that the row names, if that is the
application's, and check again.",
    },
];

pub(crate) const REPEATED: &[Case] = &[
    Case {
        sign: Sign::OneTransaction,
        when: "Both outputs are of one producer id and epoch",
        means: "One transaction wrote the output twice: the application did, in its own retry
or loop. It isn't a rebalance, and no input was processed in two transactions.",
        next: "Where does the application send this output, and what runs that again within a
transaction? To repair: the second output is the surplus one.",
    },
    Case {
        sign: Sign::MovedBack,
        when: "A later commit of the group isn't past the input, as an earlier one is",
        means: "The group's offsets were moved back, by the commit that is named (a tool's,
where it is of no transaction): from there on inputs were processed again.",
        next: "Who reset the group's offsets (`kafka-consumer-groups.sh --reset-offsets`),
and why? What the commit is of stands in its row.",
    },
];

pub(crate) const MISSING: &[Case] = &[
    Case {
        sign: Sign::OtherLayout,
        when: "A claim names the output with bytes turned round, or a NUL or quotes",
        means: "The output is there, and its headers have another layout: a number with its
bytes turned round, or a topic with a NUL behind it or in quotes.",
        next: "How does the application write its headers? Numbers are big-endian, a topic is
its bytes alone (`docs/APPLICATION.md`).",
    },
    Case {
        sign: Sign::PlainCommit,
        when: "A commit that goes past the input is of no transaction",
        means: "The offset was committed apart from the outputs, by the consumer or a tool: it
stands where the transaction of the outputs was aborted, or never came.",
        next: "Does the application commit by `sendOffsetsToTransaction` alone? Look for
`enable.auto.commit`, `commitSync` and tools that reset offsets.",
    },
];

pub(crate) const OTHER: &[Case] = &[
    LOST_COMMIT,
    OUTSIDE,
    LAST_FOR_NEXT,
    Case {
        sign: Sign::PlainCommit,
        when: "A commit that goes past the input is of no transaction",
        means: "The offset was committed apart from the outputs, by the consumer or a tool: a
crash between the two loses or repeats an output.",
        next: "Does the application commit by `sendOffsetsToTransaction` alone? Look for
`enable.auto.commit`, `commitSync` and tools that reset offsets.",
    },
];
