//! How services are created.
ghost use Rattle.std.specs.Prelude.{◌≡◌, ◌<◌, ◌+◌, ◌^◌, true, None, Some, Err};
ghost use Rattle.iox_hub_base.specs.DescribeBase.Detail.{detail};
ghost use Rattle.iox_hub_base.specs.DescribeBase.declared.type_detail.TypeVariant.TheVariants.{FixedSize};
ghost use Rattle.iox_hub_base.specs.Hubs.{is_node};
ghost use Rattle.iox_hub_commands.specs.Asked.{types_of};
ghost use Rattle.iox_hub_commands.specs.Creating.{CreatesNumbered, create_lacking};
ghost use Rattle.iox_machine.specs.Asked.{settings_of};
ghost use Rattle.iox_command.specs.NegotiateBase.declared.failure.CreateFailure.{CreateFailure};
ghost use Rattle.iox_command.specs.declared.refusal.Refusal.{Refusal};
ghost use Rattle.iox_hub_base.specs.declared.hub.HashState.TheVariants.{Described, Locked};
ghost use Rattle.iox_hub_commands.specs.Refusing.{IsUncreated, create_refused, first_look};
ghost use Rattle.iox_command.specs.NegotiateBase.declared.failure.CreateFailure.TheVariants as uncreated;

use crate::services::asked::ServiceAsked;
use crate::services::factories::Factories;
use crate::services::opening_call::OpeningCall;
use iox_command::{Refusal, ServiceOptions, StepBefore};
use iox_describe_base::{AttributeSpecifier, ZeroCopySend};
use iox_hub_base::Hub;
use iox_negotiate_base::errors::{
    EventCreateError, PublishSubscribeCreateError, RequestResponseCreateError,
};
use iox_queues_base::Words;
use std::alloc::Global;

impl Factories {
    /// Creates a service with these attributes, and answers the number of its factory. The actions of other nodes are done before the
    /// storage operations that they name.
    ///
    /// None, and nothing happens, if the hub has no node with the number. Refused as `HubBuilder::create_with_attributes_in` refuses it:
    /// for impossible settings before anything else is done, whatever memory there is; then, whatever memory there is, if no action is
    /// named before the first storage operation, with `HangsInCreation` if the first lookup finds that another node is about to create the
    /// service, and with `AlreadyExists` if it finds that the service exists. Refused with `OutOfMemory`, too, if an allocation fails for
    /// the lists of actions or for capacity; then nothing happens, except that there may be more capacity. No memory is taken for that if
    /// no actions are named and there is capacity.
    ///
    /// Example: `let created = factories.create(alloc, &mut hub, &asked, &attributes, &[]);`
    pub fn create<T: Words + ZeroCopySend, U: Copy + ZeroCopySend, B: Drop, D: Drop>(
        &mut self,
        alloc: Global,
        hub: &mut Hub<T, U, B, D>,
        asked: &ServiceAsked,
        attributes: &AttributeSpecifier,
        steps: &[StepBefore],
    ) -> Option<Result<u64, Refusal>>
        requires number { self.old.made.next + 1 < 2 ^ 64 }
        ensures creates { CreatesNumbered (is_node asked.now.node hub.old.nodes) (detail FixedSize T.name T.size T.alignment)
            (detail FixedSize U.name U.size U.alignment) (types_of T.name T.size T.alignment U.name U.size U.alignment) asked.now
            attributes.now steps.now self.old.made hub.old result self.new.made hub.new }
        ensures settings_first { is_node asked.now.node hub.old.nodes ≡ true → (failure : CreateFailure)
            → IsUncreated (settings_of (types_of T.name T.size T.alignment U.name U.size U.alignment) asked.now.options) (Some failure)
            → (result ≡ Some (Err (create_refused asked.now.options failure))) × (self.new.made ≡ self.old.made) × (hub.new ≡ hub.old) }
        ensures locked_first { is_node asked.now.node hub.old.nodes ≡ true
            → IsUncreated (settings_of (types_of T.name T.size T.alignment U.name U.size U.alignment) asked.now.options) None
            → first_look asked.now steps.now hub.old ≡ Some Locked
            → (result ≡ Some (Err (create_refused asked.now.options uncreated.HangsInCreation))) × (self.new.made ≡ self.old.made)
            × (hub.new ≡ hub.old) }
        ensures standing_first { is_node asked.now.node hub.old.nodes ≡ true
            → IsUncreated (settings_of (types_of T.name T.size T.alignment U.name U.size U.alignment) asked.now.options) None
            → first_look asked.now steps.now hub.old ≡ Some Described
            → (result ≡ Some (Err (create_refused asked.now.options uncreated.AlreadyExists))) × (self.new.made ≡ self.old.made)
            × (hub.new ≡ hub.old) }
    {
        self.called(alloc, hub, asked, OpeningCall::Create(attributes), steps)
    }
}

// The refusal if memory runs out before the first storage operation.
pub(crate) fn create_lacking(options: &ServiceOptions) -> Refusal
    ensures { result ≡ create_lacking options.now }
{
    match options {
        ServiceOptions::PublishSubscribe(_) => {
            Refusal::PublishSubscribeCreate(PublishSubscribeCreateError::OutOfMemory)
        }
        ServiceOptions::Event(_) => Refusal::EventCreate(EventCreateError::OutOfMemory),
        ServiceOptions::RequestResponse(_) => {
            Refusal::RequestResponseCreate(RequestResponseCreateError::OutOfMemory)
        }
    }
}
