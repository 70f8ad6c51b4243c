//! What the help of `simulate` says.

pub(crate) const SIMULATE: &str =
    "Writes a folder of logs as a simulated cluster leaves it, for `check`";

pub(crate) const SIMULATE_WRITES: &str =
    "The cluster is a simulation in this process, without a network and a clock: two
applications of one group read the topic `in` and write `out`, of two partitions
each, in transactions. A script of N words, drawn from the seed, says what
happens: inputs come in, requests are lost and come twice, sessions are
abandoned and go on as zombies, transactions are aborted, the members of the
group change, brokers and the coordinator restart. Then what is left is
processed, and the cluster comes to rest. The same words of the command line
give the same bytes on every machine.

FOLDER must not be there. It gets `evidence.json` and a folder for each
partition, with segments of 16 records. `wrote partitions=6` (status 0) says
that all of it was written; `eoscheck check FOLDER` then says yes, and
`eoscheck dump` lists what stands in a segment.

A RATE is how many of 1000 words say it. One that is not given is as ever: lose
15.625, repeat 62.5, abandon 7.8125, members 3.90625, restart-broker 7.8125,
restart-coordinator 11.71875, abort 31.25, time-out, add-partition,
late-complete and elect 0. All come to 1000 at most. At a time-out the
coordinator aborts an application's open transaction, and its producer is
fenced. With add-partition a partition is listed before a record comes there,
or without one. With late-complete end markers come by themselves, and the
coordinator writes that a transaction is complete later, or restarts before.
With elect a partition gets a new leader, which has all its records, at the
next leader epoch.

With --links each sender and receiver have a queue of messages of their own, as
connections do: a word draws of which one the first arrives or is lost.

With --chain a second group, of one application, reads what stands committed in
`out`, and writes `fin`, of as many partitions. The manifest is of version 2.

With --switch the cluster breaks a rule, as a bad broker or coordinator would:
in a few events after the script, and from a word on that --switch-at gives;
with --no-tail from there alone. `check` then says no, by this fault. Below it
stands what may be behind it, in all phases, and what may come before it inside
a script:

  keep-duplicates    1.4 Sequence     a record that came twice stands twice
                     behind it 5.6, 5.8, 5.10, 5.12
  no-fence           1.5 ZombieEpoch  a zombie writes after a newer epoch
                     behind it 1.11; before it 1.6, 1.11
  no-bump            1.7 NoBump       end markers have the epoch of the data
                     behind it 3.3, 3.5, 3.7, 5.6, 5.8, 5.12; before it 1.5
  lose-marker        1.11 OpenAtEnd   end markers are missing in the logs
                     before it 1.6
  swap-marker        3.3 WrongKind    out-1 has an abort where out-0 has a commit
                     behind it 3.5, 3.7, 5.6, 5.8, 5.12; before it 1.9
  hide-listing       3.4 NotListed    transactions don't list out-1, but write it
                     behind it 3.5, 5.6, 5.8, 5.10, 5.12; before it 1.6
  ignore-generation  5.10 Repeated    two members process the same input

With --mishap an application errs, once: at the input O of in-N, or at the first
that suits. An input at offset O has O modulo 3 outputs, or a note where that is
0; a mishap needs one with outputs, wrong-count one with two, and offset-deleted
any. aborted-input is one of the second group, at the record O of out-N. Behind
the fault of a mishap stands at most the same, of its input's other output:

  lost-output        5.11 Missing           its last output is not written
  repeated-output    5.10 Repeated          its first output is written twice
  early-output       5.7 Early              its outputs, but nobody commits it
  wrong-count        5.8 CountDisagrees     its second output says 2 of 3
  wrong-number       5.9 NumberRange        one more output than it counts
  foreign-source     5.5 ForeignSource      an output of a topic nobody reads
  other-transaction  5.12 OtherTransaction  its outputs one transaction early
  no-headers         4.1 BadLineage         one output more, without headers
  offset-deleted     4.4 OffsetDeleted      its group's offset is deleted
  aborted-input      5.6 NoSuchInput        it was aborted, and is processed

--mishap unclean-election is none of an application: at a drawn word of the
later half a partition's leader is lost, and the new one lacks the last records,
one to three of them, which were acknowledged. The label has their offsets.

With --stop-anywhere the run ends after its last word: nothing is processed any
more, and nothing restarts. FOLDER is what somebody copies from a cluster that
goes on: transactions are open there, or decided and not yet ended, and `check`
says no, by 1.11 OpenAtEnd or 2.5 Unfinished. A --switch then needs --switch-at.

With --collect a mistake is made where the logs are copied and the ends read,
after the run; BASE is the first offset of a file, as its name has it, and AT is
a byte of it. A mistake that finds nothing to be made in is refused:

  lost-segment@TOPIC-N:BASE            the file isn't copied
  cut-segment@TOPIC-N:BASE             its last byte isn't
  renamed-segment@TOPIC-N:BASE:NAME    it gets another name
  two-replicas@TOPIC-N                 the first file is that of another replica
  compacted@TOPIC-N                    Kafka's log cleaner has been over the log
  wrong-end@TOPIC-N:END                the end is read too high or too low
  forgotten@TOPIC-N                    the partition is left out
  doubled@TOPIC-N:NUMBER               it is there under another number too
  turned-byte@TOPIC-N:BASE:AT:VALUE    a byte of the file is another
  rewritten-byte@TOPIC-N:BASE:AT:VALUE and the batch's checksum is made right

With --history all that happens is written to FILE, which must not be there, as
JSON lines (docs/SIMULATOR.md): what the cluster is, each event with its reply,
and the totals. --schedule runs the lines of such a file, so that they can be
cut, edited and run again. It says what the other options would say but for
--history, --labels, --stop-anywhere and --collect, so none of them goes with
it; a reply may be left out, and one that comes out differently is told with its
number (status 1).

With --labels what was done wrong is written to FILE, which must not be there:
a JSON line for each mishap, each message that was lost or repeated, and each
rule that was broken where a message was taken, with its place in the log, and
for each mistake of --collect; and but for messages the codes of the faults that
may follow.

With --count so many folders are made in FOLDER, which must not be there: 000001
and so on, of the seeds from S on. Each is as its own words would make it, with
its labels beside it, as 000001.labels. When it is whole, a line of JSON on
standard output tells its folder, its labels and the words that make it. A seed
that leaves no evidence, as where the cluster never comes to rest, is told on
standard error, and passed over. With --swarm each seed draws what isn't said:
sizes, rates, --chain, switches and when they are on, and mishaps. The words
of its line have all that was drawn, and so make it without --swarm.

With --every no folder is made. A cluster of one application and one partition
of each topic is run by each schedule of at most N words, and comes to rest. The
words are eleven, one for each thing that a word can say (docs/SIMULATOR.md).
Each run is judged as `check` would. `every schedules=S states=M accused=0`
(status 0) says how many were run, and how many states they met, a state as
often as it was met. The first run of which `check` says no ends it: what it
says goes to standard error, and the history of that run to standard output, for
--schedule (status 1). With --switch a rule is broken from the first word on.

It shows what a fault looks like and that the checker finds it, and says nothing
of real brokers.

Examples:
  eoscheck simulate --seed 7 --events 200 FOLDER
  eoscheck simulate --seed 7 --events 200 --switch no-fence FOLDER
  eoscheck simulate --seed 7 --events 200 --chain --mishap lost-output FOLDER
  eoscheck simulate --seed 7 --events 200 --mishap unclean-election FOLDER
  eoscheck simulate --seed 7 --events 200 --collect forgotten@out-1 FOLDER
  eoscheck simulate --seed 7 --events 200 --history history.jsonl FOLDER
  eoscheck simulate --schedule history.jsonl FOLDER
  eoscheck simulate --count 100 --seed 1 --events 200 FOLDER >index.jsonl
  eoscheck simulate --count 100 --swarm --seed 1 --events 200 FOLDER >index
  eoscheck simulate --every 4
  eoscheck simulate --every 4 --switch lose-marker >history.jsonl";
