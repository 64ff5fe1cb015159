//! A hub with all that commands made in it.
ghost use Rattle.std.specs.Prelude.{◌≡◌};
ghost use Rattle.iox_hub_commands.specs.Agreements.{AreOfOneAgreement};
ghost use Rattle.iox_hub_commands.specs.Grown.{HaveGrown};
ghost use Rattle.iox_hub_commands.specs.Lives.{NumbersRise};
ghost use Rattle.iox_hub_commands.specs.Numbers.{IsNew, numbers_used};
ghost use Rattle.iox_hub_commands.specs.PortRoom.{HasRoom};

use crate::room::Pledged;
use crate::services::{Factories, Hub, HubConfig};
use crate::{FixedDegradation, FixedHandlers, Made};
use std::alloc::Global;

/// A hub, and what commands made in it, by numbers that are counted from 1 for each kind. A number names nothing any longer once its
/// factory, port, loan or sample has ended.
///
/// `T` is the element of messages, `U` their user header, `B` the handlers of a publisher, `D` the handler of a subscriber.
/// Not in `iceoryx2`.
pub struct NumberedHub<T, U, B = FixedHandlers, D = FixedDegradation> {
    /// The hub.
    pub hub: Hub<T, U, B, D>,
    /// The open factories.
    pub factories: Factories,
    /// The open ports, the loans that are out, and the samples that are held.
    pub made: Made,
    /// How many numbers are reserved for ports.
    pub pledged: Pledged,
}

/// The implementation is here once, so that no crate above proves it again.
impl<T: Drop, U: Drop, B: Drop, D: Drop> Drop for NumberedHub<T, U, B, D> {
    fn drop(self) {
        let NumberedHub {
            hub: _,
            factories: _,
            made: _,
            pledged: _,
        } = self;
    }
}

impl<T: Copy, U: Copy, B: Drop, D: Drop> NumberedHub<T, U, B, D> {
    /// A hub in which nothing was made. It takes no memory.
    /// Example: `let mut hub = NumberedHub::<u64, ()>::new(alloc, config);`
    pub fn new(alloc: Global, config: HubConfig) -> Self
        ensures is_new { IsNew config result }
        ensures numbers { numbers_used result ≡ 5 }
        ensures rise { NumbersRise result }
        ensures grown { HaveGrown result.hub.services.domains }
        ensures one_agreement { AreOfOneAgreement result.factories.made result.hub }
        ensures room { HasRoom result }
    {
        NumberedHub {
            hub: Hub::new(alloc, config),
            factories: Factories::new(alloc),
            made: Made::new(alloc),
            pledged: Pledged {
                loans: 0,
                samples: 0,
            },
        }
    }
}
