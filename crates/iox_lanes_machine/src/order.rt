//! The order of a connection.
ghost use Rattle.std.specs.Prelude.{◌≡◌, ◌++◌, ◌<◌, [], length, OnOk, OnErr};
ghost use Rattle.std.specs.Option.{option_to_list};
ghost use Rattle.iox_lanes_machine.specs.QueuesSteps.Order.{at};

use iox_queues_steps::{Act, Placed};
use std::alloc::{AllocError, Global};
use std::marker::Model;

/// The puts, takes and looks of a connection, in their order.
#[derive(Drop)]
pub(crate) struct Order {
    placed: Vec<Placed>,
}

impl Model for Order {
    ghost use Rattle.std.specs.Prelude.{List};
    ghost use Rattle.iox_lanes_machine.specs.QueuesSteps.declared.order.Placed.{Placed};

    ghost Value = { List Placed };

    ghost view = { λ o. o.placed.items };
}

impl Order {
    /// The empty order.
    pub(crate) fn new(alloc: Global) -> Order
        ensures { result ≡ [] }
    {
        Order {
            placed: Vec::new(alloc),
        }
    }

    /// Appends these, both or none. It fails only where an allocation fails.
    pub(crate) fn add(
        &mut self,
        moment: u64,
        first: Option<Act>,
        second: Option<Act>,
    ) -> Result<(), AllocError>
        ensures added { OnOk result (self.new ≡ self.old ++ at moment (option_to_list first ++ option_to_list second)) }
        ensures same { OnErr result (self.new ≡ self.old) }
        ensures some { OnErr result (0 < length (option_to_list first ++ option_to_list second)) }
    {
        match (first, second) {
            (None, None) => Ok(()),
            (Some(act), None) | (None, Some(act)) => {
                self.placed.reserve(1)?;
                self.placed.push_reserved(Placed { act, moment });
                Ok(())
            }
            (Some(act), Some(next)) => {
                self.placed.reserve(2)?;
                self.placed.push_reserved(Placed { act, moment });
                self.placed.push_reserved(Placed { act: next, moment });
                Ok(())
            }
        }
    }

    /// The puts, takes and looks.
    pub(crate) fn placed(&self) -> &[Placed]
        ensures { result.now ≡ self.now }
    {
        &self.placed
    }
}
