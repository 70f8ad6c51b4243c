//! Elections of leaders: a partition gets one that has all its records, or one that lacks the last of them.

ghost use Rattle.std.specs.Prelude.{◌≡◌};
ghost use Rattle.eos_drive.specs.steps.Drives.{HasAsked, HasDone};

use crate::actors::Actors;
use crate::driver::{Driver, records_in};
use crate::plan::remainder;
use bytes::Bytes;
use eos_cluster::Cluster;
use eos_machine::{Event, Reply};
use std::alloc::AllocError;

/// A partition whose leader may change.
#[derive(Clone, Copy)]
enum Led {
    Offsets,
    In(usize),
    Out(usize),
    Fin(usize),
}

/// The most records that an election loses.
const MOST_LOST: u64 = 3;

impl Led {
    fn topic(self) -> Bytes {
        Bytes::from_static(match self {
            Led::Offsets => b"__consumer_offsets".as_slice(),
            Led::In(_) => b"in".as_slice(),
            Led::Out(_) => b"out".as_slice(),
            Led::Fin(_) => b"fin".as_slice(),
        })
    }

    fn partition(self) -> usize {
        match self {
            Led::Offsets => 0,
            Led::In(partition) => partition,
            Led::Out(partition) => partition,
            Led::Fin(partition) => partition,
        }
    }

    /// How many records its log has.
    fn records(self, cluster: &Cluster) -> u64 {
        records_in(cluster, &self.topic(), self.partition())
    }

    /// That it gets a leader which has so many of its records.
    fn election(self, kept: u64) -> Event {
        Event::Elect {
            topic: self.topic(),
            partition: self.partition(),
            kept,
        }
    }
}

impl Actors {
    /// A partition gets a new leader, which has all its records.
    pub(crate) fn elect(
        &mut self,
        cluster: &mut Cluster,
        driver: &mut Driver,
        choice: u64,
    ) -> Result<(), AllocError>
        requires { driver.old.course ≡ cluster.old }
        ensures { HasAsked cluster.old driver.old cluster.new driver.new }
    {
        let led = self.led(remainder(choice, self.led_count()));
        driver.elect(cluster, led.topic(), led.partition())?;
        Ok(())
    }

    /// A leader is lost, and the new one lacks the last records, one to three: of the first partition from a chosen one on that has any.
    /// Whether there was one.
    pub(crate) fn lose_leader(
        &mut self,
        cluster: &mut Cluster,
        driver: &mut Driver,
        choice: u64,
    ) -> Result<bool, AllocError>
        requires { driver.old.course ≡ cluster.old }
        ensures done { HasDone cluster.old driver.old cluster.new driver.new }
        ensures honest { cluster.new.honest ≡ cluster.old.honest }
    {
        let Some(led) = self.to_lose(cluster, choice / MOST_LOST) else {
            return Ok(false);
        };
        let kept = led.records(cluster).saturating_sub(1 + choice % MOST_LOST);
        let Reply::Done(_) = driver.ask_any(cluster, led.election(kept))? else {
            return Ok(false);
        };
        self.hear_of_loss(led, kept);
        Ok(true)
    }

    /// The partition that loses its leader, if one has any records.
    fn to_lose(&self, cluster: &Cluster, choice: u64) -> Option<Led> {
        let count = self.led_count();
        for place in 0..count {
            let led = self.led(remainder(choice.saturating_add(place as u64), count));
            if led.records(cluster) > 0 {
                return Some(led);
            }
        }
        None
    }

    /// What is known of the inputs and outputs of a partition is known of what is left of it.
    fn hear_of_loss(&mut self, led: Led, kept: u64) {
        match led {
            Led::In(source) => self.plan.lost_inputs(source, kept),
            Led::Out(partition) => self.plan.lost_outputs(self.alloc, partition),
            Led::Offsets | Led::Fin(_) => {}
        }
        for number in 0..self.instances.len() {
            self.instances[number].set_back();
        }
    }

    /// How many partitions there are whose leaders may change.
    fn led_count(&self) -> usize {
        let config = self.plan.config();
        let written = if config.chain { 2 } else { 1 };
        config
            .outputs
            .saturating_mul(written)
            .saturating_add(config.inputs)
            .saturating_add(1)
    }

    /// The partition of this number among them.
    fn led(&self, number: usize) -> Led {
        let config = self.plan.config();
        let Some(place) = number.checked_sub(1) else {
            return Led::Offsets;
        };
        let Some(place) = place.checked_sub(config.inputs) else {
            return Led::In(place);
        };
        match place.checked_sub(config.outputs) {
            Some(place) => Led::Fin(place),
            None => Led::Out(place),
        }
    }
}
