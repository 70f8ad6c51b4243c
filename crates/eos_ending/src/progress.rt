//! How far a check is, as standard error is told, and how long its stages took.

use crate::subject::Subject;
use eos_disk::Watch;
use std::sync::atomic::{AtomicU64, Ordering};
use std::time::Instant;

/// How many milliseconds lie between two lines at least.
const PAUSE: u64 = 250;

/// Whether it is told how far a run is, and when it was told last.
#[derive(Drop)]
pub struct Meter<'a> {
    rt: &'a HostRuntime,
    /// Whether it is told at all.
    tells: bool,
    /// When the run began; none where nobody asks, or where there is no clock.
    start: Option<Instant>,
    /// The first millisecond at which something may be told again.
    open_from: AtomicU64,
}

impl<'a> Meter<'a> {
    /// A run begins. Nothing is told of it where that isn't wanted; its stages are timed then where a report is.
    pub fn start(rt: &'a HostRuntime, tells: bool, is_reported: bool) -> Meter<'a> {
        Meter {
            rt,
            tells,
            start: if tells || is_reported {
                Instant::now(rt).ok()
            } else {
                None
            },
            open_from: AtomicU64::new(0),
        }
    }

    /// The milliseconds since it began; none where nobody asks.
    fn now(&self) -> Option<u64> {
        let elapsed = self.start?.elapsed(self.rt).ok()?;
        let seconds = elapsed.as_secs().saturating_mul(1000);
        Some(seconds.saturating_add(u64::from(elapsed.subsec_millis())))
    }

    /// Whether it may be told now. Of several threads that ask at once, one gets its turn.
    fn takes_turn(&self, now: u64) -> bool {
        let open = self.open_from.load(Ordering::SeqCst);
        if now < open {
            return false;
        }
        let next = now.saturating_add(PAUSE);
        self.open_from
            .compare_exchange(open, next, Ordering::SeqCst, Ordering::SeqCst)
            .is_ok()
    }
}

/// How far the check of a folder is. Its segments are read, each of which is folded meanwhile, and then the whole is judged.
#[derive(Drop)]
pub struct Progress<'a> {
    meter: &'a Meter<'a>,
    pub subject: Subject<'a>,
    /// At which millisecond of the run it began.
    begun: u64,
    /// How many segments there are.
    segments: AtomicU64,
    read: Reading,
}

/// How many milliseconds the stages of a check took.
#[derive(Clone, Copy)]
pub struct Stages {
    /// Reading the segments.
    pub read: u64,
    /// Folding them: 0, since each is folded while it is read.
    pub folded: u64,
    /// Judging the whole.
    pub judged: u64,
}

/// The reading of the segments.
#[derive(Drop)]
struct Reading {
    /// How many segments are done.
    done: AtomicU64,
    /// How many bytes those have.
    bytes: AtomicU64,
    /// At which millisecond the last of them was done.
    last: AtomicU64,
}

impl Reading {
    fn new() -> Reading {
        Reading {
            done: AtomicU64::new(0),
            bytes: AtomicU64::new(0),
            last: AtomicU64::new(0),
        }
    }

    /// A segment of so many bytes is done.
    fn add(&self, bytes: u64, now: u64) {
        self.done.fetch_add(1, Ordering::SeqCst);
        self.bytes.fetch_add(bytes, Ordering::SeqCst);
        self.last.fetch_max(now, Ordering::SeqCst);
    }
}

impl<'a> Progress<'a> {
    /// The check of a folder begins.
    pub fn begin(meter: &'a Meter<'a>, subject: Subject<'a>) -> Progress<'a> {
        Progress {
            meter,
            subject,
            begun: meter.now().unwrap_or(0),
            segments: AtomicU64::new(0),
            read: Reading::new(),
        }
    }

    /// Tells how many segments are read.
    fn tell(&self) {
        let subject = self.subject;
        let done = self.read.done.load(Ordering::SeqCst);
        let bytes = self.read.bytes.load(Ordering::SeqCst);
        let segments = self.segments.load(Ordering::SeqCst);
        let _ = eprint!(self.meter.rt;
            "{subject}eoscheck: read {done} of {segments} segments, {bytes} bytes\n"
        );
    }

    /// The check is done: tells how long its stages took.
    pub fn end(&self) {
        if self.meter.tells && self.meter.start.is_some() {
            self.tell_stages(self.stages());
        }
    }

    fn tell_stages(&self, stages: Stages) {
        let subject = self.subject;
        let (read, read_rest) = (stages.read / 1000, stages.read % 1000);
        let (folded, folded_rest) = (stages.folded / 1000, stages.folded % 1000);
        let (judged, judged_rest) = (stages.judged / 1000, stages.judged % 1000);
        let _ = eprint!(self.meter.rt;
            "{subject}eoscheck: seconds read={read}.{read_rest:03} folded={folded}.{folded_rest:03} judged={judged}.{judged_rest:03}\n"
        );
    }

    /// How long its stages took until now; nothing where there is no clock.
    pub fn stages(&self) -> Stages {
        let now = self.meter.now().unwrap_or(self.begun);
        let read = self.read.last.load(Ordering::SeqCst).max(self.begun);
        Stages {
            read: read - self.begun,
            folded: 0,
            judged: now.max(read) - read,
        }
    }
}

impl Watch for Progress<'_> {
    fn found(&self, segments: u64) {
        self.segments.store(segments, Ordering::SeqCst);
    }

    fn read(&self, bytes: u64) {
        if let Some(now) = self.meter.now() {
            self.read.add(bytes, now);
            if self.meter.tells && self.meter.takes_turn(now) {
                self.tell();
            }
        }
    }
}
