//! A call on a shared structure, which requests one access after another, and the memory that performs them.
ghost use Rattle.std.specs.Prelude.{◌≡◌, ℕ, Bool, List, [], length, false};
ghost use Rattle.iox_queues_steps.specs.Runs.{Runs};
ghost use Rattle.iox_queues_steps.specs.declared.access.Access.{Access};

use crate::access::Access;

/// A call that proceeds one access at a time.
pub trait End: Copy {
    // the next access of the call
    ghost asks: { Self → Access };

    // the call after it received the result of that access
    ghost takes: { Self → ℕ → Self };

    // whether the call is finished
    ghost over: { Self → Bool };

    /// The next access of the call.
    fn next(&self) -> Access
        ensures { result ≡ asks self.now };

    /// The call after it received the result of that access.
    fn take(self, answer: u64) -> Self
        ensures { result ≡ takes self answer };

    /// Whether the call is finished.
    fn is_over(&self) -> bool
        ensures { result ≡ over self.now };
}

/// A memory of shared words that performs accesses.
pub trait Memory {
    // the access may have this result, and leave this memory
    ghost answers: { Self → Access → ℕ → Self → Type 0 };

    /// Makes the access, and returns its result.
    fn apply(&mut self, access: Access) -> u64
        ensures { answers self.old access result self.new };
}

/// Makes the accesses that the call requests, one after another, until the call is finished, but at most `most` of them. Returns the call
/// as it is then.
#[inline(always)]
pub fn run<E: End, M: Memory>(begun: E, memory: &mut M, most: u32) -> E
    ensures { (given : List ℕ) × Runs M.answers E.asks E.takes E.over given memory.old begun memory.new result
        × (E.over result ≡ false → length given ≡ most) }
{
    let mut end = begun;
    for i in 0..most {
        if end.is_over() {
            return end;
        }
        let answer = memory.apply(end.next());
        end = end.take(answer);
    }
    end
}
