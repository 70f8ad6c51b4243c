//! Phase 5: the outputs of the applications against their inputs.

use crate::cases;
use crate::page::Page;

pub(crate) static OUTPUTS: [Page; 8] = [
    Page {
        code: "5.5",
        name: "ForeignSource",
        cases: &[],
        brief: &["an output names a topic that isn't a source"],
        says: "A visible output names as its input a record of a topic that is no source of
the application.",
        means: "It is the output of something else, or its header is written wrongly.",
        causes: "- A source topic isn't in the manifest, or is misspelled there.
- The input's headers are forwarded in place of the output's own.
- The topic is written with quotes (source=%22..), as JSON does.",
        next: "Compare `sources` of evidence.json with the topic in `source=`.",
    },
    Page {
        code: "5.6",
        name: "NoSuchInput",
        cases: &[],
        brief: &["an output names an input that isn't there or was aborted"],
        says: "A visible output names an input that isn't there, or was aborted.",
        means: "It was made from a record that readers of committed records never got.",
        causes: "- The source's partition isn't in `ends`.
- The consumer reads uncommitted records (`isolation.level` isn't
  `read_committed`).
- Offset or partition are written wrongly, such as in little-endian order.",
        next: "Is the partition in `ends`? If it is, `eoscheck dump` at the offset: aborted?",
    },
    Page {
        code: "5.7",
        name: "Early",
        cases: cases::EARLY,
        brief: &["an output of an input that isn't committed yet"],
        says: "A visible output names an input at or above the group's committed offset.",
        means: "The output is visible and its input would be processed again.",
        causes: "- At the very first input: the manifest names another group than ran.
- From some input on: the group's offsets were reset backwards.
- At the last input: the last offset was committed in place of the last plus
  one.
- Else: the offsets weren't committed in the output's transaction.",
        next: "Which groups stand in __consumer_offsets (`dump --decode`)? Compare the name.",
    },
    Page {
        code: "5.8",
        name: "CountDisagrees",
        cases: &[],
        brief: &["two outputs of an input name different counts"],
        says: "Two outputs of one input name different numbers of outputs.",
        means: "How many outputs the input has isn't known, so none can be called missing.",
        causes: "- `eo.of` is the count so far, not the count of all: it has to be known before
  the first output is sent.
- The application's logic changed between two runs over the same input.",
        next: "Both outputs with `dump --decode --headers`; are they of one transaction?",
    },
    Page {
        code: "5.9",
        name: "NumberRange",
        cases: &[],
        brief: &["an output's number isn't in 1 to its count"],
        says: "An output's number isn't one of 1 to its count, or is 0 and no note.",
        means: "The numbering is wrong; number 0 is only the note of an input without outputs.",
        causes: "- Outputs are numbered from 0.",
        next: "The application's numbering; `docs/APPLICATION.md`.",
    },
    Page {
        code: "5.10",
        name: "Repeated",
        cases: cases::REPEATED,
        brief: &["an output stands twice: the input was processed twice"],
        says: "One output of an input stands twice, and both are visible.",
        means: "The input was processed twice, each time in a committed transaction. No rule
of the brokers need be broken.",
        causes: "- A member that had lost its partition went on: its offsets were sent without
  the group's metadata (KIP-447), so it wasn't fenced.
- The group's offsets were reset backwards, and the application went on.
- Two applications with one group's role and different groups.
- One transaction wrote the output twice: a retry in the application.",
        next: "The transactional ids of both transactions: one or two? Look for a rebalance
between them. To repair: the second output is the surplus one.",
    },
    Page {
        code: "5.11",
        name: "Missing",
        cases: cases::MISSING,
        brief: &["a committed input lacks an output"],
        says: "An input below the group's committed offset lacks an output, or has none and
no note.",
        means: "The input was passed and its outputs aren't visible: lost, or never made.",
        causes: "- At the very first input: `outputs` of the manifest isn't the topic that was
  written; or numbers are in little-endian order, or a topic has a closing
  NUL.
- In the middle: an input without outputs and without the note.
- From the first on: the group began elsewhere than at 0, or was reset
  forwards.
- Offsets were committed outside the transaction that was aborted.",
        next: "Is there an aborted output of the input? Then its transaction was aborted, and
something else committed past it. Who committed that offset?",
    },
    Page {
        code: "5.12",
        name: "OtherTransaction",
        cases: cases::OTHER,
        brief: &[
            "an output from another transaction than one that",
            "committed past its input",
        ],
        says: "An output is visible, and its transaction isn't one that committed past its
input.",
        means: "Output and progress didn't go in one transaction: a crash between them loses
or repeats the output.",
        causes: "- Offsets are committed by the consumer, not by `sendOffsetsToTransaction`.
- The last offset is committed in place of the last plus one.
- Outputs are sent outside the transaction, or by a second producer.",
        next: "The producer ids of the output and of the commit (`dump --decode`): are they
one?",
    },
];
