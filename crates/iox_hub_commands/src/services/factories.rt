//! The table: which factory has a number.
ghost use Rattle.std.specs.Prelude.{◌≡◌, ◌+◌, ◌<◌, ◌^◌, length, option_map, OnOk};
ghost use Rattle.std.specs.Result.{result_map_both};
ghost use Rattle.iox_negotiate_table.specs.Describe.Within.{HasForm};
ghost use Rattle.iox_container.specs.NumberTable.{value_at, inserted};
ghost use Rattle.iox_hub_commands.specs.ServicesNumbering.{MakesRoom, Prepares};
ghost use Rattle.iox_hub_commands.specs.ServicesTables.{no_factories, parts_of, publish_subscribe_in};

use crate::services::made::MadeFactory;
use crate::services::requests::step_lists;
use iox_command::StepBefore;
use iox_container::by_number::Numbered;
use iox_describe::pattern::PublishSubscribe;
use iox_describe_base::{MessageTypeDetails, ServiceName};
use iox_hub_base::PortFactory;
use iox_negotiate_table::StepList;
use std::alloc::{AllocError, Global};

/// The factories that a run of commands opened and that aren't closed yet, by numbers that are counted from 1. A number names nothing any
/// longer once its factory is closed.
///
/// Each call is handed the hub. Each answers None, and nothing happens, if a number names nothing: no node of the hub, or no factory of it.
/// Not in `iceoryx2`.
#[derive(Drop)]
pub struct Factories {
    /// The open factories.
    pub made: Numbered<MadeFactory>,
}

impl Factories {
    /// A table in which nothing was opened yet. It takes no memory.
    pub fn new(alloc: Global) -> Self
        ensures { result.made ≡ no_factories }
    {
        Factories {
            made: Numbered::new(alloc),
        }
    }

    /// The factory of a publish-subscribe service with this number, if there is one.
    pub fn publish_subscribe(&self, number: u64) -> Option<&PortFactory<PublishSubscribe>>
        ensures { option_map (λ factory. (factory.now.service.membership, factory.now.owner)) result
            ≡ publish_subscribe_in (value_at self.now.made number) }
    {
        match self.made.get(number) {
            Some(MadeFactory::PublishSubscribe(factory)) => Some(factory),
            _ => None,
        }
    }

    // Prepares what a call that opens needs: capacity for one more factory, and the lists of actions. It takes no memory if there is
    // capacity and no actions are named.
    pub(crate) fn prepare(
        &mut self,
        alloc: Global,
        name: &ServiceName,
        types: &MessageTypeDetails,
        steps: &[StepBefore],
    ) -> Result<Vec<StepList>, AllocError>
        ensures prepares { Prepares name.now types.now steps.now self.old.made
            (result_map_both (λ lists. lists.items) (λ lacking. lacking) result) self.new.made }
        ensures room { OnOk result (length self.new.made.entries < self.new.made.room) }
    {
        self.make_room()?;
        step_lists(alloc, name, types, steps)
    }

    // Gives the factory the next number; its description has the form of one, whoever made it.
    pub(crate) fn number(&mut self, factory: MadeFactory) -> u64
        requires room { length self.old.made.entries < self.old.made.room }
        requires number { self.old.made.next + 1 < 2 ^ 64 }
        ensures table { self.new.made ≡ inserted self.old.made factory }
        ensures number { result ≡ self.old.made.next }
        ensures form { HasForm (parts_of factory).0.service.description }
    {
        factory.description();
        self.made.insert_next(factory)
    }

    // Makes capacity for one more factory, if there is none.
    fn make_room(&mut self) -> Result<(), AllocError>
        ensures { MakesRoom self.old.made result self.new.made }
    {
        let room = self.made.room();
        if self.made.len() < room {
            return Ok(());
        }
        self.made.reserve(room.checked_add(1).ok_or(AllocError)?)
    }
}
