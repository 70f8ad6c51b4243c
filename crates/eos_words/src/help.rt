//! What `--help` says.

pub(crate) const ABOUT: &str =
    "Checks whether Kafka's promise of exactly once was kept, by the logs of the partitions";

pub(crate) const CHECK: &str =
    "Checks whether the promise of exactly once was kept in a folder of logs";

/// After it stands the list of the kinds of faults.
pub(crate) const CHECK_ANSWERS: &str =
    "FOLDER holds `evidence.json` (docs/EVIDENCE.md) and for each partition that it
names in `ends` a folder TOPIC-N with the partition's segments, each a file of
20 digits and `.log`, from offset 0 on. In its place its fold may lie, of the
same digits and `.fold`, as `eoscheck fold` writes it: the answer is the same,
but of a partition with a fault by itself --all needs the logs. Other files are
ignored.

With several folders each line that is printed about one, also an error, begins
with `FOLDER: `, and the exit status is the greatest; a folder that cannot be
read does not keep the others from being checked.

`yes transactions=T inputs=I outputs=O` (status 0) says of these logs: they are
whole and fenced, no sequence is repeated or missing in a producer epoch, every
transaction is committed in all its partitions or aborted in all, and the
visible outputs are, for each input below its group's committed offset, its
numbered outputs or one note, each once, from transactions that committed past
it, and nothing else. It is said of the logs as they were given: that they are
the cluster's whole logs, and that each output has the right value, is yours to
know.

With --progress, and where standard error is a terminal and no --quiet is given,
it is told there, at most four times a second, how many segments and bytes were
read and summarised, and at the end how many seconds each stage took.

`no PHASE.KIND NAME ..` (status 1) names the first fault; a phase counts only
where those before it have none. With --json the same stands in an object, and
as `fields` what the fault is, by the members that it has in a report.
`eoscheck explain FOLDER` tells where it comes from in the logs, and
`eoscheck explain --code PHASE.KIND` what makes it happen.

With --all each fault of that phase has its line, in the order that makes the
first one first, and the last line is `faults=N`; with --json each line is an
object. Of the outputs that one input lacks only that of the least number is
listed. A yes is one line, as it is without --all.

After the verdict stands on standard error a line `eoscheck: note: ..` for each
sign that the evidence isn't the one that was meant, as a group that committed
nothing (docs/EVIDENCE.md lists them). A note changes no verdict. With --strict
a yes beside which a note stands has status 4, also where --quiet leaves the
note out; else a note changes no status.

With --expect inputs=N a yes that counts otherwise has status 4, and a line
`eoscheck: FOLDER: inputs=I, but N were expected` on standard error says so;
likewise transactions=N and outputs=N. --expect may be given once for each
count, and holds of each FOLDER. What stands on standard output stays, and so do
the statuses 1, 2 and 3.

With --report FILE the verdict, the notes and how long the check took are also
written to FILE, as one JSON object (docs/report.schema.json). FILE may not be
there before, unless --force is given; it is written whole or not at all, and
not where there is no verdict. With --report - the report is all that stands on
standard output, and the lines of the verdict are on standard error. --report
goes with one FOLDER.

With --page FILE the same is written to FILE for people, as one page of HTML
that needs nothing else and has no script, to attach to what is said of an
incident: the verdict in words, the notes, how many faults there are of each
kind, the first ten of them, how much each partition holds and how far each
group has got, and of these ten what `explain` tells and `draw` draws. With
--all it counts all faults, else it has the first alone. A byte of a name that
is no letter of ASCII stands in it as %XX. For the stories FOLDER is read again,
whole, and once more for the pictures; where that is refused, the page says why
in their place. FILE is treated as that of --report, may not be the same, and
may not be -.

With --force the report is written as FILE.whole, then what stands at FILE is
taken away and the report gets its name; likewise the page. A run that is killed
between these two leaves FILE.whole, which the next one doesn't touch. A folder,
a pipe, a device and what lies in /dev are not written over.

Examples:
  eoscheck check FOLDER
  eoscheck check --json FOLDER
  eoscheck check --all --workers 8 FOLDER
  eoscheck check --quiet --strict --expect inputs=100000 FOLDER || exit
  eoscheck check --progress --report report.json --force FOLDER
  eoscheck check --report - FOLDER 2> lines | jq .counts
  eoscheck check --all --page incident.html FOLDER
";

pub(crate) const STATUSES: &str = "Exit status:
  0  the answer is good: the verdict is yes, the listing ends at the end, the
     chain is kept, or what was asked for was written
  1  a fault was found, and the last line names it
  2  the words are wrong, a file cannot be read or written, or it is larger than
     a segment may be (2^30 bytes)
  3  memory ran out
  4  the verdict is yes, but not as --strict or --expect wants it

A segment is one file of a partition's log as a Kafka broker keeps it, such as
00000000000000000000.log: record batches (magic 2, not compressed), one after
the other. The folders that `check` reads may hold folds of segments in their
place, as 00000000000000000000.fold. Without words, eoscheck reads a segment
from its standard input, as `eoscheck dump -` does, unless that is a terminal.

Examples:
  eoscheck init --app billing:orders:payments --ends ends.txt FOLDER
  eoscheck check FOLDER
  eoscheck explain FOLDER";

pub(crate) const DUMP: &str =
    "Prints the batches and records of a segment, or the first fault and its byte";

pub(crate) const DUMP_COLUMNS: &str =
    "For each batch a line, and after it a line for each of its records:

  batch byte=B base=O count=N producer=P epoch=E sequence=S KIND
  record offset=O key=X value=X headers=N

  byte      where the batch begins in the file
  base      the offset of its first record
  count     how many records it has
  producer  the producer id, epoch and base sequence; -1 where there is none
  KIND      plain; txn, data of a transaction; commit or abort, the end marker
            of one; control, another control batch
  key       a key or a value in hexadecimal digits, or null
  headers   how many headers the record has

With --from and --to only the records of these offsets are listed, from the
first one on and below the second, and the batches that have one of them; the
last line stays. With --headers below each record

  timestamp=T           in milliseconds since 1970
  header KEY=X          for each header: a value as above; of the key, bytes
                        other than letters, digits, . _ and - as % and two
                        digits, as of all names below

With --decode below each data record what it says, by the name of the folder in
which FILE lies, or as --as says: transactions in __transaction_state-N, offsets
in __consumer_offsets-N, and outputs in all others:

  claim TOPIC-N:O K/OF  output K of OF of the input at offset O of TOPIC-N
  transaction id=ID producer=P epoch=E status=STATE partitions=TOPIC-N,..
  commit group=G TOPIC-N=O
                        the group goes on at offset O
  transaction id=ID tombstone
  commit group=G TOPIC-N tombstone
                        the id is forgotten, the committed offset is deleted
  skipped key           a key of another version, of neither of these logs' use
  unread NAME           why the record doesn't read: BadLineage, the headers
                        are no claim; Short, the bytes end early, or the key is
                        null; Version, Status, Length, a number there may not
                        be; Trailing, bytes are left

The last line is `end bytes=N` (status 0), or `bad byte=B NAME` (status 1),
where no batch begins at byte B:

  Truncated   the bytes end before the batch does
  Length      the batch's length is below that of an empty batch
  Magic       another format than magic 2
  Crc         the checksum differs
  Compressed  the records are compressed
  Count       the number of records and the offsets don't fit each other
  Varint      a number in a record has no end, or is too long
  Record      a length in a record is wrong, or bytes of it are left
  Delta       a record's offset isn't its place in the batch
  Trailing    bytes are left after the last record
  Control     a control batch that isn't one control record
  Producer    a producer id or epoch is below 0 where it may not be

Examples:
  eoscheck dump FOLDER/in-0/00000000000000000000.log
  eoscheck dump --headers --from 100 --to 200 FILE
  eoscheck dump --decode FOLDER/__transaction_state-0/00000000000000000000.log
  eoscheck dump --as offsets - < FILE";

pub(crate) const CHAIN: &str =
    "Checks that no sequence is missing or repeated in a segment, and that zombies are fenced";

pub(crate) const CHAIN_ANSWERS: &str =
    "The segment is taken for a whole partition that begins at its first batch: a
later segment of a good log often answers FirstSequence, since what its
producers wrote before isn't in it. So does a segment of __consumer_offsets
with transactions, since Kafka gives no sequences there.

The answer is `ok batches=N producers=N` (status 0), with the number of unequal
producer ids, or the first fault, `no 1.K NAME offset=O ..` (status 1). O is
the offset at which it stands, and there follow

  segment= byte= batch=  for BadBatch: the segment's first offset, the byte at
                         which no batch begins, and why, in the words of `dump`
  found=                 for Gap: the offset of the batch that stands there
  producer=              for the others: the producer id

  1.1 BadBatch        no batch begins there (see `eoscheck dump --help`)
  1.2 Gap             another offset than the next one stands there
  1.3 FirstSequence   a producer's epoch doesn't begin at sequence 0
  1.4 Sequence        a sequence is missing or repeated
  1.5 ZombieEpoch     a producer wrote with an older epoch than before
  1.6 EpochWhileOpen  a new epoch began while a transaction was open
  1.7 NoBump          an end marker has the epoch of its data
  1.8 MixedProducer   a producer wrote both inside and outside transactions
  1.9 MarkerKind      one transaction has both a commit and an abort

Examples:
  eoscheck chain FOLDER/in-0/00000000000000000000.log
  cat FOLDER/in-0/*.log | eoscheck chain -";

pub(crate) const EXPLAIN: &str =
    "Tells the story of a fault in a folder, or what a kind of fault is";

pub(crate) const EXPLAIN_USAGE: &str = "eoscheck explain [OPTIONS] <FOLDER>
       eoscheck explain --code <CODE>";

pub(crate) const EXPLAIN_SAYS: &str =
    "With FOLDER, as of `check`, the first fault is told, or with --fault K the
K-th of those that `check --all` lists: its `no` line; the places in the logs
that it is about, each with its role; what it means and what to look at next;
how many faults of each kind there are; and the notes. These are 40 lines at
most, and the status is that of `check`. A place is TOPIC-N:OFFSET, and the byte
at which its batch begins in which segment, named by its first offset:

  fault     the place of the fault itself
  record    the input, or another record that the fault names
  claim     a visible record that names the input, who wrote it, what it says
  unseen    the same, but aborted or still open
  touch     a batch of the producer; before, between: the batches beside it
  marker    the end marker of a transaction, or that a partition lacks it
  data      the data of a transaction
  decided   the record of __transaction_state that decided it
  state     another record of the transactional id or producer
  commit    a committed offset of the group, or that none goes past the input
  header    one of the five headers of a claim
  segment   a segment of the partition
  end       where the partition is declared to end

CODE is what stands before the name in a `no` line, or the name: of `no 5.10
Repeated ..` it is 5.10 or Repeated. `eoscheck check --help` lists all kinds,
docs/FAULTS.md has all pages.

Examples:
  eoscheck explain FOLDER
  eoscheck explain --fault 3 FOLDER
  eoscheck explain --code Repeated";

pub(crate) const DRAW: &str =
    "Draws the transactions around a fault of an evidence, as an SVG file";

pub(crate) const DRAW_SHOWS: &str =
    "A column is a transaction, a row a partition; a cell has the transaction's
records by offset and its end marker, and in the rows of its inputs the offsets
that its commit passed. The places of the fault are in red. Beside the fault's
transaction stand those that share a partition with it, in the order of that
partition's log. Without a fault the first transactions are drawn.

FILE.svg must not be there; it is written whole or not at all. The program
prints `drew columns=N rows=M`; the exit status is that of `check`: 0 yes, 1 a
fault.

Examples:
  eoscheck draw FOLDER fault.svg
  eoscheck draw --fault 3 --around 2 FOLDER third.svg";

pub(crate) const INIT: &str =
    "Writes the manifest of a folder of copied logs, evidence.json, for `check`";

pub(crate) const INIT_WRITES: &str =
    "FOLDER holds folders TOPIC-N that were copied from a broker's log directory. The
manifest is written to FOLDER/evidence.json, which must not be there, and is
read back; `wrote partitions=N` (status 0) says so. With one --app it is of
version 1, else of version 2. Without --app it names no application: `check`
then judges the logs and the transactions, and not the outputs.

--ends FILE takes the ends from lines TOPIC:PARTITION:OFFSET, as
`kafka-get-offsets.sh --time -1` prints them. The manifest gets those of the
topics that an --app names, of __consumer_offsets and __transaction_state, and
of every partition that a record of the transaction log in FOLDER lists; without
--app also those of every partition that has a folder. Such a partition without
a line is refused by name, and so is one of these topics that has a folder and
no line. With --ends-from-logs each ends where its copied log ends, so that a
copy that was cut short can't be found.

What `check` will refuse is said at once, on standard error: a partition that
doesn't begin at offset 0, one that begins with a compressed batch, and one
that has an end but no folder. So is what may be wrong with FILE: that it has no
line of a topic, or none at all, or that its lines end in carriage returns,
which aren't read. And of each group which partition of __consumer_offsets it
commits to, where FILE has the lines of all of them.

Examples:
  eoscheck init --app billing:orders:payments --ends ends.txt FOLDER
  eoscheck init --app billing:orders,refunds:payments --ends-from-logs FOLDER
  kafka-get-offsets.sh --bootstrap-server HOST:PORT --time -1 |
    eoscheck init --app billing:orders:payments --ends - FOLDER";

pub(crate) const COORDINATOR: &str =
    "Prints which partition of Kafka's own two topics a group or an id has";

pub(crate) const COORDINATOR_PRINTS: &str =
    "For each NAME a line `NAME partition=K`. A group of this name commits to
partition K of __consumer_offsets, and what a transactional id of this name does
stands in partition K of __transaction_state, where that topic has N partitions.
Kafka has 50 of each, unless offsets.topic.num.partitions or
transaction.state.log.num.partitions says otherwise.

K is Kafka's Utils.abs(NAME.hashCode()) % N: Java's hash of the text, its
absolute value, or 0 for the least integer. Of NAME, bytes other than letters,
digits, . _ and - are printed as % and two digits.

Examples:
  eoscheck coordinator billing
  eoscheck coordinator --partitions 12 billing shipping";

pub(crate) const FOLD: &str =
    "Folds segments where they lie, so that `check` needs no copies of them";

pub(crate) const FOLD_USAGE: &str = "eoscheck fold [OPTIONS] --manifest <FILE> <TOPIC-N>...
       eoscheck fold --verify <FOLDER> <LOGS>...";

pub(crate) const FOLD_WRITES: &str =
    "The path TOPIC-N ends with the name of a partition, which FILE has in its
`ends`. Each segment in it, a file of 20 digits and `.log`, is read once, and
its fold is written to OUT/TOPIC-N, as a file of the same digits and `.fold`.
That file must not be there, and is written whole or not at all. `folded
segments=N bytes=B` (status 0) says how many segments were read, of how many
bytes.

A fold is what `check` wants of a segment: the head of each batch, and of its
records nothing where FILE's applications read the topic, which input each one
claims where they write it, and of Kafka's own two logs the keys and values. So
it is a small part of the segment, without the applications' keys and values.
docs/FOLD.md has its bytes.

Folding judges nothing: a segment in which a fault stands is folded up to it,
with the fault. `check` answers by folds as it does by the logs that they were
made of. So run it where the logs lie, on each broker with the same FILE, gather
what was written in one folder, put FILE there as evidence.json, and check that.

That a fold was made of the log of its name, and that this log is whole, is
yours to know. `check` refuses a fold that was made for other roles or other
source topics than those of its manifest. A fold has no records: `init` needs
the logs, `explain` those of the partitions that its story names, and both it
and `check --all` those of a partition that has a fault by itself.

With --verify FOLDER nothing is written. Each fold in FOLDER, which has its
evidence.json, is compared with the log TOPIC-N/BASE.log in the first of the
folders LOGS that has it: by the same manifest that log is folded again, and the
bytes have to be the same. Of each fold that differs stands a line, and behind
them their numbers:

  stale PATH   it is the fold of a front of the log, which was written on since
  forged PATH  it is neither the log's fold nor one of a front of it
  compared right=R stale=S forged=F unmatched=U
               the log of U folds is in none of LOGS

The status is 0 where R is not 0 and S and F are, 1 where a fold differs, and 2
where none was compared or a file cannot be read. So a few partitions' logs are
enough for a sample; of the folds without a log nothing is said.

Examples:
  eoscheck fold --manifest evidence.json --out folds logs/in-0 logs/out-0
  cp evidence.json folds
  eoscheck check folds
  eoscheck fold --verify folds logs";
