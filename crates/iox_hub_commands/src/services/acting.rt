//! Actions of other nodes.
ghost use Rattle.iox_hub_commands.specs.Asked.{types_of};
ghost use Rattle.iox_hub_commands.specs.Foreign.{ActsNamed};

use crate::services::requests::{message_types, step_list};
use iox_command::{ForeignStep, HubError};
use iox_describe_base::{MessagingPattern, ServiceName, ZeroCopySend};
use iox_hub_base::Hub;
use std::alloc::Global;

/// Does these actions of other nodes on the service of this pattern and name, one after the other, as `Hub::foreign` does them.
///
/// Refused with `HubError::OutOfMemory` at the first action that runs out of memory; the actions before it stay done. Refused so, too, if
/// an allocation fails for their list, and then nothing happens; an empty list takes no memory.
///
/// Not in `iceoryx2`.
pub fn foreign<T: Copy + ZeroCopySend, U: Copy + ZeroCopySend, B: Drop, D: Drop>(
    alloc: Global,
    hub: &mut Hub<T, U, B, D>,
    pattern: MessagingPattern,
    name: &ServiceName,
    steps: &[ForeignStep],
) -> Result<(), HubError>
    ensures { ActsNamed pattern name.now (types_of T.name T.size T.alignment U.name U.size U.alignment) steps.now hub.old result hub.new }
{
    let types = message_types::<T, U>();
    match step_list(alloc, name, &types, steps) {
        Ok(list) => hub.foreign(pattern, name, &list),
        Err(_) => Err(HubError::OutOfMemory),
    }
}
