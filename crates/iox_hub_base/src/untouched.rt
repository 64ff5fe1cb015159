//! A table that runs out of memory before the first storage operation.
ghost use Rattle.std.specs.Prelude.{◌≡◌, Option};
ghost use Rattle.std.specs.Option.{unwrap_or};
ghost use Rattle.iox_delivery_factories.specs.DescribeSettings.Agreement.{AreWithinLimits, HasNoRoomForHistory};
ghost use Rattle.iox_negotiate.specs.Asked.{IsRefusal};
ghost use Rattle.iox_negotiate_table.specs.NegotiateBase.declared.failure.CreateFailure.{CreateFailure};
ghost use Rattle.iox_negotiate_table.specs.NegotiateBase.declared.failure.CreateFailure.TheVariants.{OutOfMemory};

use iox_describe::ServiceHash;
use iox_negotiate::{Negotiated, ServiceBuilder};
use iox_negotiate_base::{
    LeaveAnswer, LockAnswer, LookAnswer, MakeSegmentAnswer, OpenSegmentAnswer, PublishAnswer,
    RemoveAnswer, Storage, StoredDescription,
};
use std::alloc::Global;

// A table that runs out of memory before the first storage operation: a lookup reports this, and no call gets further.
#[derive(Drop)]
struct Untouched;

impl Storage for Untouched {
    ghost use Rattle.iox_hub_base.specs.Untouched.{FindsNoMemory};

    ghost id = { λ _. 0 };

    ghost gives = { λ _ access _. FindsNoMemory access };

    fn id(&self) -> u64 {
        0
    }

    fn look(&mut self, _hash: &ServiceHash) -> LookAnswer {
        LookAnswer::OutOfMemory
    }

    fn lock(&mut self, _hash: &ServiceHash, _node: u64) -> LockAnswer {
        LockAnswer::OutOfMemory
    }

    fn make_segment(
        &mut self,
        _hash: &ServiceHash,
        _number: u64,
        _node: u64,
        _max_nodes: u64,
    ) -> MakeSegmentAnswer {
        MakeSegmentAnswer::OutOfMemory
    }

    fn publish(
        &mut self,
        _hash: &ServiceHash,
        _number: u64,
        _bytes: StoredDescription,
    ) -> PublishAnswer {
        PublishAnswer::OutOfMemory
    }

    fn unlock(&mut self, _hash: &ServiceHash, _number: u64) {}

    fn open_segment(&mut self, _hash: &ServiceHash, _number: u64, _node: u64) -> OpenSegmentAnswer {
        OpenSegmentAnswer::OutOfMemory
    }

    fn leave(&mut self, _hash: &ServiceHash, _number: u64, _node: u64) -> LeaveAnswer {
        LeaveAnswer::Stays
    }

    fn remove_description(&mut self, _hash: &ServiceHash, _number: u64) -> RemoveAnswer {
        RemoveAnswer::Fault
    }

    fn remove_segment(&mut self, _hash: &ServiceHash, _number: u64) -> RemoveAnswer {
        RemoveAnswer::Fault
    }
}

/// The error of a call that creates, if memory runs out before the first storage operation; settings that are impossible are still
/// reported. It takes no memory.
// It has a stack frame of its own, so that the caller's frame, below which the deepest calls are made, doesn't grow.
#[inline(never)]
pub(crate) fn lacking_create<P: Negotiated>(
    alloc: Global,
    builder: ServiceBuilder<P>,
) -> P::CreateError
    ensures { (refusal : Option CreateFailure)
        × IsRefusal (AreWithinLimits (P.settings (P.adjusted (P.asked builder.requirement))))
        (HasNoRoomForHistory (P.settings (P.adjusted (P.asked builder.requirement)))) refusal
        × (result ≡ P.create_error (unwrap_or refusal OutOfMemory)) }
{
    let mut table = Untouched;
    builder.create(alloc, &mut table).unwrap_err()
}
