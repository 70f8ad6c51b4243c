//! What a word of a script says happens, and how often each of it is said.

ghost use Rattle.std.specs.Prelude.{◌≡◌, ◌↔◌, ◌≤◌, ◌+◌, true};
ghost use Rattle.eos_drive.specs.Rates.{share_of, sum_of};

/// What happens to a run at a word.
#[derive(Clone, Copy)]
pub(crate) enum Happening {
    /// An input comes in.
    Feed,
    /// An application takes its turn; it may give its transaction up.
    Work { aborts: bool },
    /// An abandoned session goes on.
    WorkAbandoned,
    /// The next message arrives.
    Carry,
    /// The next message is lost.
    Lose,
    /// A message arrives again, or late.
    Repeat,
    /// A session is abandoned.
    Abandon,
    /// The members of the group change.
    ChangeMembers,
    RestartBroker,
    RestartCoordinator,
    /// An application's transaction has been open too long.
    TimeOut,
    /// An application adds a partition to its transaction.
    AddPartition,
    /// An end marker arrives, and completes nothing; or the coordinator completes a transaction.
    CompleteLate,
    /// A partition gets a new leader, which has all its records.
    Elect,
}

/// A word: what it says happens, and a number that says to whom.
#[derive(Clone, Copy)]
pub(crate) struct Said {
    pub(crate) happening: Happening,
    pub(crate) rest: u64,
}

/// Of a thousand words of a script how many say that this happens, each from 0 to 1,000; `None` is today's rate, which stands
/// beside it. All other words say what a run without mishaps consists of: inputs, turns, and messages that arrive.
#[derive(Clone, Copy, PartialEq, Eq)]
pub struct Rates {
    /// The next message is lost: 15.625.
    pub lose: Option<u16>,
    /// A message arrives again, or late: 62.5.
    pub repeat: Option<u16>,
    /// A session is abandoned: 7.8125.
    pub abandon: Option<u16>,
    /// The members of the group change: 3.90625.
    pub members: Option<u16>,
    /// A broker restarts: 7.8125.
    pub restart_broker: Option<u16>,
    /// The coordinator restarts: 11.71875.
    pub restart_coordinator: Option<u16>,
    /// An application gives its transaction up, where it waits for no more than its end: 31.25.
    pub abort: Option<u16>,
    /// The coordinator aborts an application's transaction, if it is open, as having been so for too long: 0.
    pub time_out: Option<u16>,
    /// An application adds a partition to its transaction, before it has sent anything there or after it: 0.
    pub add_partition: Option<u16>,
    /// The next message arrives, if it is an end marker, and its transaction isn't complete by that; or the coordinator completes
    /// one of which it awaits no end marker: 0.
    pub late_complete: Option<u16>,
    /// A partition gets a new leader, which has all its records: 0.
    pub elect: Option<u16>,
}

/// A rate of a thousandth, where that of every word is 32,000: a number of which today's rates are whole ones.
const THOUSANDTH: u64 = 32;

const WHOLE: u64 = 32_000;

/// Today's rates.
const LOSE: u64 = 500;

const REPEAT: u64 = 2000;

const ABANDON: u64 = 250;

const MEMBERS: u64 = 125;

const RESTART_BROKER: u64 = 250;

const RESTART_COORDINATOR: u64 = 375;

const ABORT: u64 = 1000;

const TIME_OUT: u64 = 0;

const ADD_PARTITION: u64 = 0;

const LATE_COMPLETE: u64 = 0;

const ELECT: u64 = 0;

/// Of the words that say nothing of these rates, in 55: 6 feed, 30 work, 17 carry, 2 are an abandoned session's.
const FEEDS: u64 = 6;

const WORKS: u64 = 36;

const CARRIES: u64 = 53;

const ORDINARY: u64 = 55;

impl Rates {
    /// Today's.
    pub const TODAY: Rates = Rates {
        lose: None,
        repeat: None,
        abandon: None,
        members: None,
        restart_broker: None,
        restart_coordinator: None,
        abort: None,
        time_out: None,
        add_partition: None,
        late_complete: None,
        elect: None,
    };
}

/// The share of a rate, in 32,000ths of the words: what was chosen, or today's.
fn share(chosen: Option<u16>, today: u64) -> u64
    ensures value { result ≡ share_of chosen today }
    ensures few { result ≤ today + 2097120 }
{
    match chosen {
        Some(rate) => THOUSANDTH * u64::from(rate),
        None => today,
    }
}

impl Rates {
    /// Whether they come to 1,000 at the most, with today's for those that aren't chosen.
    pub fn fit(&self) -> bool
        ensures { result ≡ true ↔ (sum_of self.now ≤ 32000) }
    {
        self.sum() <= WHOLE
    }

    fn sum(&self) -> u64
        ensures { result ≡ sum_of self.now }
    {
        share(self.lose, LOSE)
            + share(self.repeat, REPEAT)
            + share(self.abandon, ABANDON)
            + share(self.members, MEMBERS)
            + share(self.restart_broker, RESTART_BROKER)
            + share(self.restart_coordinator, RESTART_COORDINATOR)
            + share(self.abort, ABORT)
            + share(self.time_out, TIME_OUT)
            + share(self.add_partition, ADD_PARTITION)
            + share(self.late_complete, LATE_COMPLETE)
            + share(self.elect, ELECT)
    }

    /// What a word says.
    pub(crate) fn said(&self, word: u32) -> Said {
        if *self == Rates::TODAY {
            said_today(word)
        } else {
            self.said_by_rates(word)
        }
    }

    fn said_by_rates(&self, word: u32) -> Said {
        let rest = u64::from(word) / WHOLE;
        let mut number = u64::from(word) % WHOLE;
        let mut left = WHOLE;
        for (happening, share) in self.shares() {
            if number < share {
                return Said { happening, rest };
            }
            number -= share;
            left = left.saturating_sub(share);
        }
        Said {
            happening: ordinary(number, left),
            rest,
        }
    }

    /// What happens at these rates, each with its share.
    fn shares(&self) -> [(Happening, u64); 11] {
        [
            (Happening::Lose, share(self.lose, LOSE)),
            (Happening::Repeat, share(self.repeat, REPEAT)),
            (Happening::Abandon, share(self.abandon, ABANDON)),
            (Happening::ChangeMembers, share(self.members, MEMBERS)),
            (
                Happening::RestartBroker,
                share(self.restart_broker, RESTART_BROKER),
            ),
            (
                Happening::RestartCoordinator,
                share(self.restart_coordinator, RESTART_COORDINATOR),
            ),
            (Happening::Work { aborts: true }, share(self.abort, ABORT)),
            (Happening::TimeOut, share(self.time_out, TIME_OUT)),
            (
                Happening::AddPartition,
                share(self.add_partition, ADD_PARTITION),
            ),
            (
                Happening::CompleteLate,
                share(self.late_complete, LATE_COMPLETE),
            ),
            (Happening::Elect, share(self.elect, ELECT)),
        ]
    }
}

/// What else happens, by a number below so many.
fn ordinary(number: u64, below: u64) -> Happening {
    let place = number.saturating_mul(ORDINARY) / below.max(1);
    if place < FEEDS {
        Happening::Feed
    } else if place < WORKS {
        Happening::Work { aborts: false }
    } else if place < CARRIES {
        Happening::Carry
    } else {
        Happening::WorkAbandoned
    }
}

/// What a word says at today's rates: its five low bits, and where these leave a choice the next ones.
fn said_today(word: u32) -> Said {
    let rest = u64::from(word / 32);
    let happening = match word % 32 {
        0..=2 => Happening::Feed,
        3..=18 => Happening::Work {
            aborts: rest / 64 % 16 == 0,
        },
        19..=26 => Happening::Carry,
        27 if rest % 2 == 0 => Happening::Lose,
        27 => Happening::Carry,
        28..=29 => Happening::Repeat,
        30 => Happening::WorkAbandoned,
        _ => return disturbance_today(rest),
    };
    Said { happening, rest }
}

/// A disturbance, by its three low bits.
fn disturbance_today(choice: u64) -> Said {
    let happening = match choice % 8 {
        0..=1 => Happening::Abandon,
        2 => Happening::ChangeMembers,
        3..=4 => Happening::RestartBroker,
        _ => Happening::RestartCoordinator,
    };
    Said {
        happening,
        rest: choice / 8,
    }
}
