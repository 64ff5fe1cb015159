//! Lanes before their first step, to which nothing happened except that they found something.
ghost use Rattle.std.specs.Prelude.{◌≡◌, ◌<◌, ◌^◌, IfOk, OnOk, false, length};

use iox_lanes_machine::{Found, LaneMachine, LaneSizes};
use std::alloc::{AllocError, Global};
use std::marker::Model;

/// Lanes before their first step, with the sizes that they were made of.
#[derive(Drop)]
pub(crate) struct NewLanes {
    sizes: LaneSizes,
    lanes: LaneMachine,
}

impl Model for NewLanes {
    ghost use Rattle.iox_lanes.specs.Finding.{Beginning, NothingCameBack};

    ghost Value = { Beginning };

    ghost view = { λ n. record { sizes = n.sizes; lanes = n.lanes } };

    ghost invariant = { λ n. NothingCameBack n.sizes n.lanes };
}

impl NewLanes {
    ghost use Rattle.iox_lanes_machine.specs.LanesBase.Numbers.{words_of};
    ghost use Rattle.iox_lanes_machine.specs.Made.{start, table_sizes};
    ghost use Rattle.iox_lanes_machine.specs.Resting.{AllBetween};
    ghost use Rattle.iox_lanes_machine.specs.WholeReads.{CameTo};
    ghost use Rattle.iox_lanes.specs.Behind.{behind_finding};
    ghost use Rattle.iox_lanes.specs.Failing.{failing};
    ghost use Rattle.iox_lanes.specs.Finding.{NothingCameBack, failing_behind, is_given_back};

    /// Lanes of these sizes. `AllocError` is returned only where an allocation fails; it does for 2^61 subscribers, whose numbers no memory
    /// can contain.
    #[tactic(auto, using(crate::proofs::Failing::as_many_made))]
    pub fn new(alloc: Global, sizes: LaneSizes) -> Result<NewLanes, AllocError>
        requires some { 0 < sizes.buffer }
        requires small { (sizes.buffer < 2 ^ 61) × (sizes.most_borrowed < 2 ^ 61) }
        ensures sizes { IfOk result (λ made. made.sizes ≡ sizes) }
        ensures publishers { IfOk result (λ made. length (failing made.lanes) ≡ sizes.publishers) }
        ensures start { IfOk result (λ made. made.lanes ≡ start sizes) }
        ensures small { IfOk result (λ _. words_of (table_sizes sizes) < 2 ^ 64) }
    {
        if sizes.subscribers >= 1 << 61 {
            return Err(AllocError);
        }
        let lanes = LaneMachine::new(alloc, sizes)?;
        // There are fewer than 2^64 words, so each has a number.
        let _words = lanes.table().words();
        Ok(NewLanes { sizes, lanes })
    }

    /// The lanes find this, if it may be found; a sample in a completion ring must not be handed in. Only `Found::Sender` changes whether
    /// the sends of a publisher fail. `AllocError` is returned only where an allocation fails.
    #[tactic(auto, using(crate::proofs::Found::found_on))]
    pub fn find(&mut self, found: Found) -> Result<(), AllocError>
        requires { is_given_back found ≡ false }
        ensures sizes { self.new.sizes ≡ self.old.sizes }
        ensures fails { failing self.new.lanes ≡ failing_behind found (failing self.old.lanes) }
        ensures behind { OnOk result (self.new.lanes ≡ behind_finding self.old.lanes found) }
    {
        let _ = self.lanes.find(found)?;
        Ok(())
    }

    /// The lanes so far.
    pub fn lanes(&self) -> &LaneMachine
        ensures { result.now ≡ self.now.lanes }
    {
        &self.lanes
    }

    /// The lanes, which were made of these sizes and found only what was handed to `find`; no port is inside a call.
    #[tactic(auto, using(crate::proofs::Found::came))]
    pub fn into_lanes(self) -> LaneMachine
        ensures came { CameTo result }
        ensures between { AllBetween result }
        ensures found { NothingCameBack self.sizes result }
        ensures lanes { result ≡ self.lanes }
    {
        let NewLanes { lanes, .. } = self;
        lanes
    }
}
