//! What is else done in one step with something, done apart from it.

ghost use Rattle.std.specs.Prelude.{◌≡◌};
ghost use Rattle.eos_drive.specs.steps.Drives.{HasAsked};

use crate::actors::{Actors, is_message};
use crate::driver::Driver;
use crate::plan::remainder;
use eos_cluster::Cluster;
use eos_machine::Event;
use std::alloc::AllocError;

impl Actors {
    /// The present instance of an application adds a partition to its transaction, if it has begun one.
    pub(crate) fn add_partition(
        &mut self,
        cluster: &mut Cluster,
        driver: &mut Driver,
        choice: u64,
    ) -> Result<(), AllocError>
        requires { driver.old.course ≡ cluster.old }
        ensures { HasAsked cluster.old driver.old cluster.new driver.new }
    {
        let number = remainder(choice, self.applications);
        let outputs = self.plan.config().outputs;
        // the last one is that of the offsets
        let place = remainder(choice / 16, outputs.saturating_add(1));
        let partition = (place < outputs).then_some(place);
        if number < self.instances.len() {
            if let Some(event) = self.instances[number].adding(partition) {
                let reply = driver.ask(cluster, event)?;
                self.instances[number].hear_added(reply);
            }
        }
        Ok(())
    }

    /// An end marker arrives, and completes nothing; or the coordinator completes an application's transaction, if all its end
    /// markers have come.
    pub(crate) fn complete_late(
        &mut self,
        cluster: &mut Cluster,
        driver: &mut Driver,
        choice: u64,
    ) -> Result<(), AllocError>
        requires { driver.old.course ≡ cluster.old }
        ensures { HasAsked cluster.old driver.old cluster.new driver.new }
    {
        if choice % 2 == 0 {
            return self.write_marker(cluster, driver, choice / 2);
        }
        let application = remainder(choice / 2, self.applications);
        driver.ask(cluster, Event::Complete { application })?;
        Ok(())
    }

    /// The next message arrives, if it is an end marker.
    fn write_marker(
        &mut self,
        cluster: &mut Cluster,
        driver: &mut Driver,
        choice: u64,
    ) -> Result<(), AllocError>
        requires { driver.old.course ≡ cluster.old }
        ensures { HasAsked cluster.old driver.old cluster.new driver.new }
    {
        let Some(next) = self.network.next(cluster, choice)? else {
            return Ok(());
        };
        let message = next.message;
        let reply = driver.ask(cluster, Event::WriteMarker { message })?;
        if is_message(reply) {
            self.network.passed(next, true)?;
        }
        Ok(())
    }
}
