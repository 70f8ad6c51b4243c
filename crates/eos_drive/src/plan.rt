//! Who reads which inputs, and what is made of them.

use crate::mishap::{ChosenMishap, Input, Mishap};
use crate::mishaps::Mishaps;
use crate::reader::{Fate, Reader};
use crate::request::{Output, Request, Topic};
use eos_batch::Kind;
use eos_cluster::Cluster;
use eos_machine::Config;
use std::alloc::{AllocError, Global};

/// The inputs of a run as far as it knows them, and how often it changed the members of each group.
#[derive(Drop)]
pub(crate) struct Plan {
    config: Config,
    /// By group: how often its members have changed.
    generations: Vec<u64>,
    /// The number of inputs of each partition of `in`.
    ends: Vec<u64>,
    /// What the second group has read of each partition of `out`: none where there is no second group.
    readers: Vec<Reader>,
    mishaps: Mishaps,
}

/// The remainder, and 0 where there is nothing to choose from.
pub(crate) fn remainder(choice: u64, count: usize) -> usize {
    if count == 0 {
        0
    } else {
        (choice % count as u64) as usize
    }
}

impl Plan {
    pub(crate) fn new(
        alloc: Global,
        config: Config,
        mishaps: &[ChosenMishap],
    ) -> Result<Plan, AllocError> {
        let mut generations = Vec::new(alloc);
        for _ in 0..config.group_count() {
            generations.push(0)?;
        }
        let mut ends = Vec::new(alloc);
        for _ in 0..config.inputs {
            ends.push(0)?;
        }
        let mut readers = Vec::new(alloc);
        if config.chain {
            for _ in 0..config.outputs {
                readers.push(Reader::new(alloc))?;
            }
        }
        Ok(Plan {
            config,
            generations,
            ends,
            readers,
            mishaps: Mishaps::new(alloc, mishaps)?,
        })
    }

    pub(crate) fn config(&self) -> Config {
        self.config
    }

    /// The generation of an application's group.
    pub(crate) fn generation_of(&self, application: usize) -> u64 {
        match self.generations.get(self.config.group_of(application)) {
            Some(generation) => *generation,
            None => 0,
        }
    }

    /// The members of an application's group have changed.
    pub(crate) fn change_members(&mut self, application: usize) {
        let group = self.config.group_of(application);
        if group < self.generations.len() {
            self.generations[group] = self.generations[group].saturating_add(1);
        }
    }

    /// An input came in at an offset.
    pub(crate) fn fed(&mut self, source: usize, offset: u64) {
        if source < self.ends.len() {
            self.ends[source] = offset.saturating_add(1);
        }
    }

    /// So many inputs of a source are left.
    pub(crate) fn lost_inputs(&mut self, source: usize, left: u64) {
        if source < self.ends.len() {
            self.ends[source] = left;
        }
    }

    /// The second group reads a partition of `out` from its first record on, since it lost its last ones.
    pub(crate) fn lost_outputs(&mut self, alloc: Global, partition: usize) {
        if partition < self.readers.len() {
            self.readers[partition] = Reader::new(alloc);
        }
    }

    /// How many inputs there are.
    pub(crate) fn inputs(&self) -> u64 {
        let mut sum = 0u64;
        for end in self.ends.as_slice() {
            sum = sum.saturating_add(*end);
        }
        sum
    }

    /// The second group reads what was appended to `out` since it read last.
    ///
    /// # Errors
    /// Where a growth was refused.
    pub(crate) fn read_outputs(&mut self, cluster: &Cluster) -> Result<(), AllocError> {
        for partition in 0..self.readers.len() {
            self.readers[partition].read(cluster.output_log(partition))?;
        }
        Ok(())
    }

    /// The first source from this one on that belongs to an application in a generation: the partition p of `in` is the
    /// application's of number p + generation, modulo the number of applications; all of `out` are that of the second group.
    pub(crate) fn next_source(
        &self,
        application: usize,
        generation: u64,
        from: usize,
    ) -> Option<usize> {
        if self.config.is_chained(application) {
            return self.next_chained(from);
        }
        for source in from..self.config.inputs {
            let place = generation.saturating_add(source as u64);
            if remainder(place, self.config.applications) == application {
                return Some(source);
            }
        }
        None
    }

    /// The first source of the second group from this one on.
    fn next_chained(&self, from: usize) -> Option<usize> {
        let source = from.max(self.config.inputs);
        let end = self.config.inputs.saturating_add(self.config.outputs);
        if source < end { Some(source) } else { None }
    }

    /// The first mishap for which there was no input.
    pub(crate) fn unmet(&self) -> Option<Mishap> {
        self.mishaps.unmet()
    }

    /// How many mishaps there are.
    pub(crate) fn mishap_count(&self) -> usize {
        self.mishaps.count()
    }

    /// The mishap at this place, if a transaction has made it since that was told.
    pub(crate) fn untold(&mut self, place: usize) -> Option<ChosenMishap> {
        self.mishaps.untold(place)
    }

    /// Adds what a transaction asks for the inputs of a source from an offset on, at most so many of them: the outputs of each,
    /// and the offset after them.
    ///
    /// # Errors
    /// Where a growth was refused; some of it was added.
    pub(crate) fn add_requests(
        &mut self,
        requests: &mut Vec<Request>,
        source: usize,
        from: u64,
        most: u64,
    ) -> Result<(), AllocError> {
        let to = match source.checked_sub(self.config.inputs) {
            Some(partition) => self.add_chained(requests, partition, from, most)?,
            None => self.add_read(requests, source, from, most)?,
        };
        if from < to {
            requests.push(Request::Commit {
                source,
                offset: Some(to),
            })?;
        }
        Ok(())
    }

    /// The outputs of a partition of `in`, and the offset to which it is read.
    fn add_read(
        &mut self,
        requests: &mut Vec<Request>,
        source: usize,
        from: u64,
        most: u64,
    ) -> Result<u64, AllocError> {
        let end = match self.ends.get(source) {
            Some(end) => *end,
            None => 0,
        };
        let reach = end.min(from.saturating_add(most));
        self.mishaps.choose(source, from, reach, end);
        let to = self.mishaps.bound(source, from, reach, end);
        for offset in from..to {
            self.add_outputs(requests, Input { source, offset })?;
        }
        if from < to {
            self.add_ahead(requests, Input { source, offset: to })?;
        }
        Ok(to)
    }

    /// The same for a partition of `out`, of which the second group is given the records of ended transactions before any open one.
    /// It passes over those that were aborted, but for one where a mishap happens.
    fn add_chained(
        &mut self,
        requests: &mut Vec<Request>,
        partition: usize,
        from: u64,
        most: u64,
    ) -> Result<u64, AllocError> {
        let mut left = most;
        let mut to = from;
        for offset in from..self.end_of(partition) {
            let input = Input {
                source: partition,
                offset,
            };
            let is_taken = match self.fate_of(input) {
                Fate::Open(_) => break,
                Fate::Passed => false,
                Fate::Ended(Kind::Commit) => true,
                Fate::Ended(Kind::Abort) => self.mishaps.meet_aborted(input),
            };
            if is_taken {
                self.add_all(requests, input)?;
                to = offset.saturating_add(1);
                left = left.saturating_sub(1);
            }
            if left == 0 {
                break;
            }
        }
        Ok(to)
    }

    /// How far a partition of `out` was read.
    fn end_of(&self, partition: usize) -> u64 {
        match self.readers.get(partition) {
            Some(reader) => reader.end_offset(),
            None => 0,
        }
    }

    /// What became of a record of `out`.
    fn fate_of(&self, input: Input) -> Fate {
        match self.readers.get(input.source) {
            Some(reader) => reader.fate(input.offset),
            None => Fate::Passed,
        }
    }

    /// All outputs of an input of the second group.
    fn add_all(&self, requests: &mut Vec<Request>, input: Input) -> Result<(), AllocError> {
        let of = input.outputs();
        for output in of.min(1)..of.saturating_add(1) {
            self.add(requests, Topic::Out, input, (output, of))?;
        }
        Ok(())
    }

    /// The outputs of an input that is read, with the mishap that is due there.
    fn add_outputs(&mut self, requests: &mut Vec<Request>, input: Input) -> Result<(), AllocError> {
        let of = input.outputs();
        match self.mishaps.meet(input, false) {
            None => self.add_from(requests, input, of.min(1), of),
            Some(Mishap::LostOutput) => self.add_from(requests, input, 1, of.saturating_sub(1)),
            Some(Mishap::RepeatedOutput) => {
                self.add_from(requests, input, 1, of)?;
                self.add(requests, Topic::In, input, (1, of))
            }
            Some(Mishap::WrongCount) => {
                self.add_from(requests, input, 1, of.saturating_sub(1))?;
                self.add(requests, Topic::In, input, (of, of.saturating_add(1)))
            }
            Some(Mishap::WrongNumber) => {
                self.add_from(requests, input, 1, of)?;
                self.add(requests, Topic::In, input, (of.saturating_add(1), of))
            }
            Some(Mishap::ForeignSource) => {
                self.add_from(requests, input, 1, of)?;
                self.add(requests, Topic::Foreign, input, (1, 1))
            }
            Some(Mishap::NoHeaders) => {
                self.add_from(requests, input, 1, of)?;
                self.add_bare(requests, input)
            }
            Some(Mishap::OffsetDeleted) => {
                self.add_from(requests, input, of.min(1), of)?;
                requests.push(Request::Commit {
                    source: input.source,
                    offset: None,
                })?;
                Ok(())
            }
            Some(Mishap::EarlyOutput | Mishap::OtherTransaction | Mishap::AbortedInput) => Ok(()),
        }
    }

    /// The outputs of the input after those that are read, where a mishap writes them ahead.
    fn add_ahead(&mut self, requests: &mut Vec<Request>, input: Input) -> Result<(), AllocError> {
        match self.mishaps.meet(input, true) {
            Some(Mishap::EarlyOutput | Mishap::OtherTransaction) => {
                self.add_from(requests, input, 1, input.outputs())
            }
            _ => Ok(()),
        }
    }

    /// The outputs of these numbers, or one note of number 0.
    fn add_from(
        &self,
        requests: &mut Vec<Request>,
        input: Input,
        first: u64,
        last: u64,
    ) -> Result<(), AllocError> {
        for output in first..last.saturating_add(1) {
            self.add(requests, Topic::In, input, (output, input.outputs()))?;
        }
        Ok(())
    }

    /// An output that names a topic and is the first of these numbers, which says that there are as many as the second.
    fn add(
        &self,
        requests: &mut Vec<Request>,
        topic: Topic,
        input: Input,
        numbers: (u64, u64),
    ) -> Result<(), AllocError> {
        let (output, of) = numbers;
        requests.push(Request::Write {
            partition: self.partition_of(input, output),
            output: Some(Output {
                topic,
                source: input.source,
                offset: input.offset,
                output,
                of,
            }),
        })?;
        Ok(())
    }

    fn add_bare(&self, requests: &mut Vec<Request>, input: Input) -> Result<(), AllocError> {
        requests.push(Request::Write {
            partition: self.partition_of(input, 1),
            output: None,
        })?;
        Ok(())
    }

    /// Where an output is written.
    fn partition_of(&self, input: Input, output: u64) -> usize {
        remainder(input.offset.saturating_add(output), self.config.outputs)
    }
}
