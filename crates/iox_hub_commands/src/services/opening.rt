//! How services are opened.
ghost use Rattle.std.specs.Prelude.{◌≡◌, ◌<◌, ◌+◌, ◌^◌, true, Some, Err};
ghost use Rattle.iox_hub_base.specs.DescribeBase.Detail.{detail};
ghost use Rattle.iox_hub_base.specs.DescribeBase.declared.type_detail.TypeVariant.TheVariants.{FixedSize};
ghost use Rattle.iox_hub_base.specs.Hubs.{is_node};
ghost use Rattle.iox_hub_commands.specs.Asked.{types_of};
ghost use Rattle.iox_command.specs.declared.refusal.Refusal.{Refusal};
ghost use Rattle.iox_hub_base.specs.declared.hub.HashState.TheVariants.{Absent, Locked};
ghost use Rattle.iox_hub_commands.specs.Opening.{OpensNumbered, open_lacking};
ghost use Rattle.iox_hub_commands.specs.Refusing.{first_look, open_absent, open_locked};

use crate::services::asked::ServiceAsked;
use crate::services::factories::Factories;
use crate::services::opening_call::OpeningCall;
use iox_command::{Refusal, ServiceOptions, StepBefore};
use iox_describe_base::{AttributeVerifier, ZeroCopySend};
use iox_hub_base::Hub;
use iox_negotiate_base::errors::{
    EventOpenError, PublishSubscribeOpenError, RequestResponseOpenError,
};
use iox_queues_base::Words;
use std::alloc::Global;

impl Factories {
    /// Opens a service if it also has these attributes, and answers the number of its factory. The actions of other nodes are done before
    /// the storage operations that they name.
    ///
    /// None, and nothing happens, if the hub has no node with the number. Refused as `HubBuilder::open_with_attributes_in` refuses it. If
    /// no action is named before the first storage operation, it is refused before anything else is done, and whatever memory there is, in
    /// two cases: with `DoesNotExist` if the first lookup finds that the service doesn't exist, and with `HangsInCreation` if another node
    /// is about to create it. Refused with `OutOfMemory`, too, if an allocation fails for the lists of actions or for capacity; then
    /// nothing happens, except that there may be more capacity. No memory is taken for that if no actions are named and there is capacity.
    pub fn open<T: Words + ZeroCopySend, U: Copy + ZeroCopySend, B: Drop, D: Drop>(
        &mut self,
        alloc: Global,
        hub: &mut Hub<T, U, B, D>,
        asked: &ServiceAsked,
        attributes: AttributeVerifier,
        steps: &[StepBefore],
    ) -> Option<Result<u64, Refusal>>
        requires number { self.old.made.next + 1 < 2 ^ 64 }
        ensures opens { OpensNumbered (is_node asked.now.node hub.old.nodes) (detail FixedSize T.name T.size T.alignment)
            (detail FixedSize U.name U.size U.alignment) (types_of T.name T.size T.alignment U.name U.size U.alignment) asked.now
            attributes steps.now self.old.made hub.old result self.new.made hub.new }
        ensures absent_first { is_node asked.now.node hub.old.nodes ≡ true → first_look asked.now steps.now hub.old ≡ Some Absent
            → (result ≡ Some (Err (open_absent asked.now.options))) × (self.new.made ≡ self.old.made) × (hub.new ≡ hub.old) }
        ensures locked_first { is_node asked.now.node hub.old.nodes ≡ true → first_look asked.now steps.now hub.old ≡ Some Locked
            → (result ≡ Some (Err (open_locked asked.now.options))) × (self.new.made ≡ self.old.made) × (hub.new ≡ hub.old) }
    {
        self.called(alloc, hub, asked, OpeningCall::Open(attributes), steps)
    }
}

// The refusal if memory runs out before the first storage operation.
pub(crate) fn open_lacking(options: &ServiceOptions) -> Refusal
    ensures { result ≡ open_lacking options.now }
{
    match options {
        ServiceOptions::PublishSubscribe(_) => {
            Refusal::PublishSubscribeOpen(PublishSubscribeOpenError::OutOfMemory)
        }
        ServiceOptions::Event(_) => Refusal::EventOpen(EventOpenError::OutOfMemory),
        ServiceOptions::RequestResponse(_) => {
            Refusal::RequestResponseOpen(RequestResponseOpenError::OutOfMemory)
        }
    }
}
