//! Actions of other nodes on the services of a hub.
ghost use Rattle.std.specs.Prelude.{◌≡◌};
ghost use Rattle.iox_delivery_factories.specs.DescribeBase.Hash.{service_hash_of};
ghost use Rattle.iox_negotiate_table.specs.Stepped.{ActsAll};
ghost use Rattle.iox_hub_base.specs.Foreign.{ActsOn};

use crate::hub::Hub;
use iox_command::HubError;
use iox_describe::{MessagingPattern, ServiceHash, ServiceName, service_hash};
use iox_negotiate_table::{ForeignStep, StepList, Table};
use std::alloc::AllocError;

impl<T: Copy, U: Copy, B: Drop, D: Drop> Hub<T, U, B, D> {
    /// Does these actions of other nodes on the service of this pattern and name, one after the other. An action that doesn't fit changes
    /// nothing.
    ///
    /// Refused with `HubError::OutOfMemory` at the first action that runs out of memory; the actions before it stay done.
    ///
    /// Not in `iceoryx2`: in `iceoryx2` other processes act by themselves.
    /// Example: `hub.foreign(MessagingPattern::PublishSubscribe, &name, &steps)?;`
    pub fn foreign(
        &mut self,
        pattern: MessagingPattern,
        name: &ServiceName,
        steps: &StepList,
    ) -> Result<(), HubError>
        ensures { ActsOn (service_hash_of pattern name.now) steps.now self.old result self.new }
    {
        let hash = service_hash(pattern, name);
        match act_all(&mut self.table, &hash, steps.as_slice()) {
            Ok(()) => Ok(()),
            Err(_) => Err(HubError::OutOfMemory),
        }
    }
}

// Does the actions one after the other, up to the first that runs out of memory.
fn act_all(table: &mut Table, hash: &ServiceHash, steps: &[ForeignStep]) -> Result<(), AllocError>
    ensures { ActsAll hash.now steps.now table.old result table.new }
{
    let mut rest = steps;
    while let Some(split) = rest.split_first() {
        rest = split.1;
        table.act(hash, split.0)?;
    }
    Ok(())
}
