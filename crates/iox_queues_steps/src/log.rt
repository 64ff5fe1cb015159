//! The log of a machine: the order of puts and takes, and each step that it made.
ghost use Rattle.std.specs.Prelude.{◌≡◌, ◌+◌, ◌<◌, ◌≤◌, ◌^◌, ◌++◌, ◌∷◌, [], OnOk, length, vec_len, vec_capacity};
ghost use Rattle.std.specs.Option.{option_to_list};
ghost use Rattle.iox_queues_steps.specs.Order.{at, logged, Log};
ghost use Rattle.iox_queues_steps.specs.Recorded.{log_of, HasRoom};

use crate::order::{Act, Placed};
use crate::schedule::Event;
use std::alloc::{AllocError, Global};

/// The order of puts and takes so far, the steps so far, and how many steps there were.
#[derive(Drop)]
pub struct Record {
    /// The puts, takes and looks so far, each with the number of the step at which it took effect.
    pub order: Vec<Placed>,
    /// The steps so far.
    pub events: Vec<Event>,
    /// How many steps were made so far.
    pub moments: u64,
}

impl Record {
    /// An empty log. It doesn't allocate.
    pub fn new(alloc: Global) -> Record
        ensures { log_of result ≡ record { order = []; events = []; moments = 0 } }
    {
        Record {
            order: Vec::new(alloc),
            events: Vec::new(alloc),
            moments: 0,
        }
    }

    /// Reserves memory for one more step, at which `acts` puts, takes or looks take effect. It fails only if an allocation fails.
    pub fn reserve(&mut self, acts: usize) -> Result<(), AllocError>
        ensures same { log_of self.new ≡ log_of self.old }
        ensures room { OnOk result (HasRoom acts self.new) }
    {
        self.order.reserve(acts)?;
        self.events.reserve(1)
    }

    /// Records a step, and at most two acts that take effect at it.
    pub fn add(&mut self, event: Event, first: Option<Act>, second: Option<Act>)
        requires room { HasRoom (length (option_to_list first) + length (option_to_list second)) self.old }
        requires few { self.old.moments < 2 ^ 63 }
        ensures { log_of self.new ≡ logged (log_of self.old) event (option_to_list first ++ option_to_list second) }
    {
        place(&mut self.order, self.moments, first);
        place(&mut self.order, self.moments, second);
        self.events.push_reserved(event);
        self.moments += 1;
    }
}

fn place(order: &mut Vec<Placed>, moment: u64, act: Option<Act>)
    requires { vec_len order.old + length (option_to_list act) ≤ vec_capacity order.old }
    ensures items { order.new.items ≡ order.old.items ++ at moment (option_to_list act) }
    ensures len { vec_len order.new ≡ vec_len order.old + length (option_to_list act) }
    ensures capacity { vec_capacity order.new ≡ vec_capacity order.old }
{
    if let Some(act) = act {
        order.push_reserved(Placed { act, moment });
    }
}
