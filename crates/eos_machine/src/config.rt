//! How large a cluster is.

ghost use Rattle.std.specs.Prelude.{◌≡◌, ◌≤◌};
ghost use Rattle.eos_machine.specs.LogIndexes.{IsConfig, application_count, final_count, group_count, group_of, is_chained};

/// The sizes of a simulated cluster. Its partitions are, by place in its list of logs: the one of `__consumer_offsets`,
/// those of `__transaction_state`, those of `fin` where there is a second group, those of `in`, those of `out`.
#[derive(Clone, Copy)]
pub struct Config {
    /// How many applications the first group has, which reads `in` and writes `out`, from 1 to 8.
    pub applications: usize,
    /// The partitions of the topic `in`, from 1 to 16.
    pub inputs: usize,
    /// The partitions of the topic `out`, from 1 to 16.
    pub outputs: usize,
    /// The partitions of `__transaction_state`, from 1 to 4.
    pub transaction_logs: usize,
    /// The records of a segment, from 1 to 1,000; the last segment of a partition may have fewer.
    pub segment_records: usize,
    /// The records of a batch at the most, from 1 to 1,000: so many one after the other that one client wrote.
    pub batch_records: usize,
    /// Whether there is a second group, of one application more, which reads `out` and writes as many partitions of `fin`.
    pub chain: bool,
}

impl Config {
    /// How many applications both groups have.
    pub fn application_count(self) -> usize
        requires { IsConfig self }
        ensures count { result ≡ application_count self }
        ensures few { result ≤ 9 }
    {
        if self.chain {
            self.applications + 1
        } else {
            self.applications
        }
    }

    /// How many partitions `fin` has.
    pub fn final_count(self) -> usize
        requires { IsConfig self }
        ensures count { result ≡ final_count self }
        ensures few { result ≤ 16 }
    {
        if self.chain { self.outputs } else { 0 }
    }

    /// Whether an application is that of the second group, which has the number after those of the first.
    pub fn is_chained(self, application: usize) -> bool
        ensures { result ≡ is_chained self application }
    {
        self.chain && application == self.applications
    }

    /// How many groups there are.
    pub fn group_count(self) -> usize
        ensures { result ≡ group_count self }
    {
        if self.chain { 2 } else { 1 }
    }

    /// The number of an application's group.
    pub fn group_of(self, application: usize) -> usize
        ensures { result ≡ group_of self application }
    {
        if self.is_chained(application) { 1 } else { 0 }
    }
}
