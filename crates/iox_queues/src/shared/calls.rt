//! Pushes and pops on shared words. Each is one run of its call: it makes the accesses that the call requests, in that order, and no
//! others.
//!
//! The accesses of the queue that overflows are written out, since a compiler keeps a loop over so many stages as a loop.
ghost use Rattle.std.specs.Prelude.{◌≡◌, ◌+◌, ◌-◌, ◌^◌, ◌<◌, ℕ, List, length, true, false, Some};
ghost use Rattle.iox_queues.specs.QueuesSteps.Runs.{Runs};
ghost use Rattle.iox_queues_steps.specs.Access.{successor};
ghost use Rattle.iox_queues_steps.specs.Overflowing as overflowing;
ghost use Rattle.iox_queues_steps.specs.Refusing as refusing;
ghost use Rattle.iox_queues_steps.specs.declared.rings.overflowing.push.Push.TheVariants as overflowing_push;
ghost use Rattle.iox_queues_steps.specs.declared.rings.overflowing.pop.Pop.TheVariants as overflowing_pop;
ghost use Rattle.iox_queues_steps.specs.declared.rings.refusing.push.Push.TheVariants as refusing_push;
ghost use Rattle.iox_queues_steps.specs.declared.rings.refusing.pop.Pop.TheVariants as refusing_pop;
ghost use Rattle.iox_queues.specs.Calls.{is_kept, left_by, popped, taken};
ghost use Rattle.iox_queues.specs.Single.{EndsUnmoved, load_is_over, load_next, load_take, store_next, store_take, store_is_over};
ghost use Rattle.iox_queues.specs.declared.shared.single.Storing.TheVariants as storing;
ghost use Rattle.iox_queues.specs.declared.shared.single.Loading.TheVariants as loading;

use super::LOST_TURNS;
use super::single::{Loading, Storing};
use iox_queues_steps::end::run;
use iox_queues_steps::rings::overflowing::Pop as OverflowingPop;
use iox_queues_steps::rings::refusing::{Pop as RefusingPop, Push as RefusingPush};
use iox_queues_steps::{Access, End, Memory, PushAnswer, Word};

/// Appends the number and returns true, or returns false if `limit` numbers wait. It makes at most four accesses.
#[inline(always)]
pub(crate) fn push_refusing<M: Memory>(memory: &mut M, limit: u64, value: u64) -> bool
    ensures { (given : List ℕ) × (end : _)
        × Runs M.answers refusing.push_next refusing.push_take refusing.push_is_over given memory.old (refusing_push.Begun limit value)
        memory.new end
        × (refusing.push_is_over end ≡ false → length given ≡ 4) × (result ≡ is_kept end) }
{
    let push = run(RefusingPush::begin(limit, value), memory, 4);
    matches!(
        push,
        RefusingPush::Pushed {
            answer: PushAnswer::Kept,
            ..
        }
    )
}

/// Removes the oldest number and returns it; `None` if no number waits. It makes at most four accesses.
#[inline(always)]
pub(crate) fn pop_refusing<M: Memory>(memory: &mut M) -> Option<u64>
    ensures { (given : List ℕ) × (end : _)
        × Runs M.answers refusing.pop_next refusing.pop_take refusing.pop_is_over given memory.old refusing_pop.Begun memory.new end
        × (refusing.pop_is_over end ≡ false → length given ≡ 4) × (result ≡ popped end) }
{
    match run(RefusingPop::begin(), memory, 4) {
        RefusingPop::Popped { got } => got,
        _ => None,
    }
}

/// Appends the number. If `limit` numbers wait, removes the oldest number and returns it. It makes at most six accesses.
#[inline(always)]
pub(crate) fn push_overflowing<M: Memory>(memory: &mut M, limit: u64, value: u64) -> Option<u64>
    ensures { (given : List ℕ) × (end : _)
        × Runs M.answers overflowing.push_next overflowing.push_take overflowing.push_is_over given memory.old
        (overflowing_push.Begun limit value) memory.new end
        × (overflowing.push_is_over end ≡ false → length given ≡ 6) × (result ≡ left_by end) }
{
    let write = memory.apply(Access::Load(Word::Write));
    let read = memory.apply(Access::Load(Word::Read));
    memory.apply(Access::Store(Word::Cell(write), value));
    let next = write.saturating_add(1);
    memory.apply(Access::Store(Word::Write, next));
    if next.saturating_sub(read) <= limit {
        return None;
    }
    let oldest = memory.apply(Access::Load(Word::Cell(read)));
    let found = memory.apply(Access::Exchange(Word::Read, read, read.saturating_add(1)));
    if found == read {
        return Some(oldest);
    }
    // A pop removed the oldest number meanwhile.
    None
}

/// Removes the oldest number and returns it; `None` if no number waits, or after 2^20 lost exchanges. It loads both positions, then each
/// try loads a cell and makes one exchange.
#[inline(always)]
pub(crate) fn pop_overflowing<M: Memory>(memory: &mut M) -> Option<u64>
    ensures { (given : List ℕ) × (end : _)
        × Runs M.answers overflowing.pop_next overflowing.pop_take overflowing.pop_is_over given memory.old overflowing_pop.Begun
        memory.new end
        × (overflowing.pop_is_over end ≡ false → length given ≡ 2 ^ 21 + 2) × (result ≡ taken end) }
{
    let read = memory.apply(Access::Load(Word::Read));
    let write = memory.apply(Access::Load(Word::Write));
    if write == read {
        return None;
    }
    let value = memory.apply(Access::Load(Word::Cell(read)));
    let found = memory.apply(Access::Exchange(Word::Read, read, read.saturating_add(1)));
    if found == read {
        return Some(value);
    }
    later_turns(found, memory)
}

// The tries after a lost exchange, which found the read position to be `read`.
#[cold]
#[inline(never)]
fn later_turns<M: Memory>(read: u64, memory: &mut M) -> Option<u64>
    ensures { (given : List ℕ) × (end : _)
        × Runs M.answers overflowing.pop_next overflowing.pop_take overflowing.pop_is_over given memory.old
        (overflowing_pop.Nonempty read (successor read)) memory.new end
        × (overflowing.pop_is_over end ≡ false → length given ≡ 2 ^ 21 - 2) × (result ≡ taken end) }
{
    let lost = OverflowingPop::Nonempty {
        read,
        next: read.saturating_add(1),
    };
    match run(lost, memory, 2 * LOST_TURNS - 2) {
        OverflowingPop::Popped { got } => got,
        _ => None,
    }
}

/// Stores the value that the memory holds, in three accesses.
#[inline(always)]
pub(crate) fn store_single<M: Memory>(memory: &mut M)
    ensures { (given : List ℕ) × Runs M.answers store_next store_take store_is_over given memory.old storing.Begun memory.new
        storing.Stored }
{
    run(Storing::Begun, memory, 3);
}

/// Loads the value into the memory and returns true, or returns false if the position moved during each of 2^20 tries. It loads the
/// position once, and makes two loads in each try.
#[inline(always)]
pub(crate) fn load_single<M: Memory>(memory: &mut M) -> bool
    ensures { (given : List ℕ) × (end : _) × Runs M.answers load_next load_take load_is_over given memory.old loading.Begun memory.new end
        × (load_is_over end ≡ false → length given ≡ 2 ^ 21 + 1) × (result ≡ load_is_over end) × (result ≡ true → EndsUnmoved given) }
{
    run(Loading::Begun, memory, 2 * LOST_TURNS + 1).is_over()
}
