//! Whole calls of lanes, one after the other.
ghost use Rattle.std.specs.Prelude.{ℕ, ◌≡◌, ◌+◌, true, length, MatchResult};
ghost use Rattle.iox_lanes_laws.specs.Turns.{GoesToEnd};
ghost use Rattle.iox_lanes_machine.specs.Resting.{AllBetween};
ghost use Rattle.iox_lanes_machine.specs.WholeReads.{CameTo};
ghost use Rattle.iox_lanes_machine.specs.World.{fits};
ghost use Rattle.iox_lanes_service.specs.Turning.{StoppedBy, TakesTurn};

use crate::in_turn::RanOut;
use iox_lanes_machine::LaneMachine;
use iox_lanes_parties::{Answer, Call, Move, Party};
use iox_queues_steps::Stepped;

// Each call takes fewer steps than this.
const STEPS: u64 = 1 << 62;

/// How a whole call came out.
#[derive(Clone, Copy)]
pub(crate) enum Turn {
    /// The call doesn't fit, and nothing changed.
    NotBegun,
    /// It stopped, since memory or steps ran out.
    Stuck(RanOut),
    /// The call ended with this answer.
    Ended(Answer),
}

// Makes the steps of the call that a party is in, up to its last one, which ends the call. Returns what ran out before that, if anything
// did.
fn goes_to_end(lanes: &mut LaneMachine, party: Party) -> Result<(), RanOut>
    requires { fits lanes.old party Move.GoOn ≡ true }
    ensures { MatchResult result
        (λ done. ((more : ℕ) × GoesToEnd party more lanes.old lanes.new)
        × (length lanes.new.finished ≡ length lanes.old.finished + 1))
        (λ why. StoppedBy party lanes.old why lanes.new) }
{
    for _made in 0..STEPS {
        match lanes.step(party, &Move::GoOn) {
            Stepped::Went => {}
            Stepped::Finished => return Ok(()),
            Stepped::NoMemory => return Err(RanOut::Memory),
            Stepped::Skipped => unreachable!(),
        }
    }
    Err(RanOut::Steps(STEPS))
}

/// Makes a whole call of a party, which no other call overlaps.
pub(crate) fn take_turn(lanes: &mut LaneMachine, party: Party, asking: Call) -> Turn
    requires came { CameTo lanes.old }
    requires between { AllBetween lanes.old }
    ensures { TakesTurn lanes.old party asking result lanes.new }
{
    let ended = lanes.finished().len();
    match lanes.step(party, &Move::Begin(asking)) {
        Stepped::Went => {}
        Stepped::Skipped => return Turn::NotBegun,
        Stepped::Finished => unreachable!(),
        Stepped::NoMemory => unreachable!(),
    }
    match goes_to_end(lanes, party) {
        Ok(()) => {}
        Err(why) => return Turn::Stuck(why),
    }
    let moments = lanes.moments();
    if moments > 9_223_372_036_854_775_808 {
        return Turn::Stuck(RanOut::Moments(moments));
    }
    match lanes.finished().get(ended) {
        Some(call) => Turn::Ended(call.answer),
        None => unreachable!(),
    }
}
