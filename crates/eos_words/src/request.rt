//! What a run is asked to do.

use crate::demands::Demands;
use eos_base::Workers;

/// What a run is asked to do.
#[derive(Drop)]
pub enum Request<'a> {
    /// Answer about one segment, which is a file or the standard input.
    Segment { answer: Answer<'a>, file: &'a str },
    /// Give the verdicts over folders of evidence.
    Check(Check<'a>),
    /// Draw the picture of a fault of an evidence.
    Draw(Draw<'a>),
    /// Print the catalogue's page of the kind of fault with this code.
    Explain { code: &'a str },
    /// Tell the story of a fault of a folder of evidence.
    Story(Explain<'a>),
    /// Write what a simulated cluster leaves.
    Simulate(Simulation<'a>),
    /// Run a simulated cluster by all schedules of some lengths.
    Every(Every<'a>),
    /// Make the history of a simulated cluster small.
    Shrink(Shrink<'a>),
    /// Write the manifest of a folder of copied logs.
    Init(Init<'a>),
    /// Write the folds of segments.
    Fold(Fold<'a>),
    /// Compare folds with logs.
    Verify(Verify<'a>),
    /// Print which partition of Kafka's own two topics names have.
    Coordinator(Coordinator<'a>),
}

/// What is asked about a segment.
#[derive(Clone, Copy)]
pub enum Answer<'a> {
    /// Its batches and records.
    Listing(Listing<'a>),
    /// Whether its producers kept their promises.
    Chain,
}

/// Which records of a segment are listed, and with what.
#[derive(Clone, Copy)]
pub struct Listing<'a> {
    /// Whether each has its timestamp and headers.
    pub headers: bool,
    /// Whether each data record has what it says.
    pub decode: bool,
    /// As what they are read, by name, if that is said; then they are decoded too.
    pub reading: Option<&'a str>,
    /// The first offset that is listed.
    pub from: u64,
    /// The first offset after those that are listed.
    pub to: u64,
}

/// Which fault of a folder of evidence is explained.
#[derive(Clone, Copy)]
pub struct Explain<'a> {
    pub workers: Workers,
    /// The number of the fault in the list of all, from 1, if that is said.
    pub fault: Option<u64>,
    pub folder: &'a str,
}

/// What is asked about folders of evidence.
#[derive(Drop)]
pub struct Check<'a> {
    pub workers: Workers,
    /// Whether the verdict is printed as JSON.
    pub json: bool,
    /// Whether all faults are printed, and not the first alone.
    pub all: bool,
    /// Whether the notes are left out.
    pub quiet: bool,
    /// Whether it is told how far the check is.
    pub progress: bool,
    /// The file that is made of the report, if one is wanted.
    pub report: Option<&'a str>,
    /// The file that is made of the page, if one is wanted.
    pub page: Option<&'a str>,
    /// Whether these files may be there, and are then written over.
    pub force: bool,
    /// What has to hold of a yes; or the word that says no such thing.
    pub demands: Result<Demands, &'a str>,
    /// The folders in the order given, at least one, none of them the empty text.
    pub folders: Vec<&'a str>,
}

/// What is to be drawn.
#[derive(Clone, Copy)]
pub struct Draw<'a> {
    /// The number of the fault in the list of all, from 1, if that is said.
    pub fault: Option<u64>,
    /// How many transactions are shown on each side of it, if that is said: from 1 to 100.
    pub around: Option<u64>,
    /// The folder of the evidence.
    pub folder: &'a str,
    /// The file that is made.
    pub file: &'a str,
}

/// What a simulated cluster is to do.
#[derive(Drop)]
pub struct Simulation<'a> {
    /// The seed of its script, or 0 where a schedule is run.
    pub seed: u64,
    /// The number of the script's words, at most 1,000,000, or 0 where a schedule is run.
    pub events: u64,
    /// How large the cluster is.
    pub sizes: Sizes,
    /// How often what happens.
    pub rates: Thousandths,
    /// Whether each sender and receiver have a queue of messages of their own.
    pub links: bool,
    /// The names of the rules that it breaks.
    pub switches: Vec<&'a str>,
    /// After how many words it breaks them, if not after the script.
    pub switch_at: Option<u64>,
    /// Whether the few events after the script are left out that show these rules broken.
    pub no_tail: bool,
    /// The words of the mistakes that the applications make.
    pub mishaps: Vec<&'a str>,
    /// Whether the run ends after its last word, at rest or not.
    pub stop_anywhere: bool,
    /// The words of the mistakes that are made where its logs are copied.
    pub mistakes: Vec<&'a str>,
    /// The file that is made of what happens, if one is wanted.
    pub history: Option<&'a str>,
    /// The file that is made of what was done wrong, if one is wanted.
    pub labels: Option<&'a str>,
    /// The file of what is to happen, if it isn't a script. Then nothing else is said but a history, labels, where it
    /// stops, the mistakes of who copies its logs, and the folder.
    pub schedule: Option<&'a str>,
    /// How many folders are made in the folder, if several are wanted, of the seeds from this one on: from 1 to 999,999. Then no history,
    /// labels or schedule are said.
    pub count: Option<u64>,
    /// Whether for each of several folders that is drawn which isn't said.
    pub swarm: bool,
    /// Whether it is told how many are made.
    pub progress: bool,
    /// The folder that is made.
    pub folder: &'a str,
}

/// How large a simulated cluster is, where that is said.
#[derive(Clone, Copy)]
pub struct Sizes {
    /// From 1 to 8.
    pub applications: Option<u64>,
    /// The partitions of `in`, from 1 to 16.
    pub inputs: Option<u64>,
    /// The partitions of `out`, from 1 to 16.
    pub outputs: Option<u64>,
    /// The partitions of `__transaction_state`, from 1 to 4.
    pub transaction_logs: Option<u64>,
    /// From 1 to 1,000.
    pub segment_records: Option<u64>,
    /// From 1 to 1,000.
    pub batch_records: Option<u64>,
    /// Whether a second group reads `out` and writes `fin`.
    pub chain: bool,
}

/// Of a thousand words how many say this, where that is said: from 0 to 1,000.
#[derive(Clone, Copy)]
pub struct Thousandths {
    pub lose: Option<u64>,
    pub repeat: Option<u64>,
    pub abandon: Option<u64>,
    pub members: Option<u64>,
    pub restart_broker: Option<u64>,
    pub restart_coordinator: Option<u64>,
    pub abort: Option<u64>,
    pub time_out: Option<u64>,
    pub add_partition: Option<u64>,
    pub late_complete: Option<u64>,
    pub elect: Option<u64>,
}

/// By which schedules a tiny simulated cluster is run.
#[derive(Drop)]
pub struct Every<'a> {
    /// How many words the longest ones have, at most 8.
    pub longest: u64,
    /// The names of the rules that it breaks.
    pub switches: Vec<&'a str>,
}

/// Which history is made small.
#[derive(Clone, Copy)]
pub struct Shrink<'a> {
    /// The file of a history or a schedule.
    pub history: &'a str,
    /// The code of the fault that it gives first, or another word.
    pub code: &'a str,
    /// The file that is made.
    pub file: &'a str,
}

/// Of which folder a manifest is made, and by what.
#[derive(Drop)]
pub struct Init<'a> {
    /// Whether the manifest has to be of version 1, which takes one application.
    pub version1: bool,
    /// The words of the applications, which may be none.
    pub apps: Vec<&'a str>,
    /// The file of the partitions' ends.
    pub ends: Option<&'a str>,
    /// Whether the ends are those of the copied logs.
    pub ends_from_logs: bool,
    pub folder: &'a str,
}

/// Which segments are folded, and by what.
#[derive(Drop)]
pub struct Fold<'a> {
    /// The file of the manifest, whose applications say what is wanted of which topic.
    pub manifest: &'a str,
    /// The folder that gets the folds.
    pub out: &'a str,
    /// The folders of the partitions in the order given, at least one, none of them the empty text.
    pub folders: Vec<&'a str>,
}

/// Which folds are compared with which logs.
#[derive(Drop)]
pub struct Verify<'a> {
    /// The folder of the folds, which has their manifest.
    pub folder: &'a str,
    /// The folders of the logs in the order given, at least one, none of them the empty text.
    pub logs: Vec<&'a str>,
}

/// Of which groups or transactional ids the partition is asked, and of how many partitions the topic is.
#[derive(Drop)]
pub struct Coordinator<'a> {
    /// How many partitions `__consumer_offsets` or `__transaction_state` has; any number.
    pub partitions: u64,
    /// The names in the order given, none of them the empty text; there may be none.
    pub names: Vec<&'a str>,
}

/// Why there is nothing to do. What is to be said of it was said.
#[derive(Clone, Copy)]
pub enum NoRequest {
    /// The help or the version was printed.
    Helped,
    /// It was asked for, and can't be printed.
    CannotPrint,
    /// It was asked for, and who read it has gone.
    NobodyReads,
    /// The words are wrong.
    BadWords,
    /// A growth of memory was refused.
    OutOfMemory,
}
