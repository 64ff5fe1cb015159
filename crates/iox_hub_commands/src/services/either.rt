//! How services are opened or created.
ghost use Rattle.std.specs.Prelude.{◌≡◌, ◌<◌, ◌+◌, ◌^◌, true, Some, Err};
ghost use Rattle.iox_hub_base.specs.DescribeBase.Detail.{detail};
ghost use Rattle.iox_hub_base.specs.DescribeBase.declared.type_detail.TypeVariant.TheVariants.{FixedSize};
ghost use Rattle.iox_hub_base.specs.Hubs.{is_node};
ghost use Rattle.iox_command.specs.NegotiateBase.declared.failure.CreateFailure.{CreateFailure};
ghost use Rattle.iox_hub_commands.specs.Asked.{types_of};
ghost use Rattle.iox_hub_commands.specs.Either.{EitherNumbered, either_lacking};
ghost use Rattle.iox_machine.specs.Asked.{settings_of};
ghost use Rattle.iox_hub_base.specs.declared.hub.HashState.TheVariants.{Absent, Locked};
ghost use Rattle.iox_hub_commands.specs.Refusing.{IsUncreated, either_locked, either_refused, first_look};

use crate::services::asked::ServiceAsked;
use crate::services::factories::Factories;
use crate::services::opening_call::OpeningCall;
use iox_command::{Refusal, ServiceOptions, StepBefore};
use iox_describe_base::{AttributeVerifier, ZeroCopySend};
use iox_hub_base::Hub;
use iox_negotiate_base::errors::{
    EventOpenError, EventOpenOrCreateError, PublishSubscribeOpenError,
    PublishSubscribeOpenOrCreateError, RequestResponseOpenError, RequestResponseOpenOrCreateError,
};
use iox_queues_base::Words;
use std::alloc::Global;

impl Factories {
    /// Opens a service if it also has these attributes, or creates it with the required pairs if it doesn't exist, and answers the number
    /// of its factory. The actions of other nodes are done before the storage operations that they name.
    ///
    /// None, and nothing happens, if the hub has no node with the number. Refused as `HubBuilder::open_or_create_with_attributes_in`
    /// refuses it. If no action is named before the first storage operation, it is refused before anything else is done, and whatever
    /// memory there is, in two cases: for impossible settings if the first lookup finds that the service doesn't exist, and with the
    /// `HangsInCreation` of the pattern's error of opening if the first lookup finds that another node is about to create the service.
    /// Refused with the `OutOfMemory` of the pattern's error of opening, too, if an allocation fails for the lists of actions or for
    /// capacity; then nothing happens, except that there may be more capacity. No memory is taken for that if no actions are named and
    /// there is capacity.
    ///
    /// Example: `let opened = factories.open_or_create(alloc, &mut hub, &asked, attributes, &[]);`
    pub fn open_or_create<T: Words + ZeroCopySend, U: Copy + ZeroCopySend, B: Drop, D: Drop>(
        &mut self,
        alloc: Global,
        hub: &mut Hub<T, U, B, D>,
        asked: &ServiceAsked,
        attributes: AttributeVerifier,
        steps: &[StepBefore],
    ) -> Option<Result<u64, Refusal>>
        requires number { self.old.made.next + 1 < 2 ^ 64 }
        ensures either { EitherNumbered (is_node asked.now.node hub.old.nodes) (detail FixedSize T.name T.size T.alignment)
            (detail FixedSize U.name U.size U.alignment) (types_of T.name T.size T.alignment U.name U.size U.alignment) asked.now
            attributes steps.now self.old.made hub.old result self.new.made hub.new }
        ensures settings_first { is_node asked.now.node hub.old.nodes ≡ true → (failure : CreateFailure)
            → IsUncreated (settings_of (types_of T.name T.size T.alignment U.name U.size U.alignment) asked.now.options) (Some failure)
            → first_look asked.now steps.now hub.old ≡ Some Absent
            → (result ≡ Some (Err (either_refused asked.now.options failure))) × (self.new.made ≡ self.old.made) × (hub.new ≡ hub.old) }
        ensures locked_first { is_node asked.now.node hub.old.nodes ≡ true → first_look asked.now steps.now hub.old ≡ Some Locked
            → (result ≡ Some (Err (either_locked asked.now.options))) × (self.new.made ≡ self.old.made) × (hub.new ≡ hub.old) }
    {
        self.called(
            alloc,
            hub,
            asked,
            OpeningCall::OpenOrCreate(attributes),
            steps,
        )
    }
}

// The refusal if memory runs out before the first storage operation.
pub(crate) fn either_lacking(options: &ServiceOptions) -> Refusal
    ensures { result ≡ either_lacking options.now }
{
    match options {
        ServiceOptions::PublishSubscribe(_) => {
            Refusal::PublishSubscribeOpenOrCreate(
                PublishSubscribeOpenOrCreateError::PublishSubscribeOpenError(
                    PublishSubscribeOpenError::OutOfMemory,
                ),
            )
        }
        ServiceOptions::Event(_) => Refusal::EventOpenOrCreate(
            EventOpenOrCreateError::EventOpenError(EventOpenError::OutOfMemory),
        ),
        ServiceOptions::RequestResponse(_) => {
            Refusal::RequestResponseOpenOrCreate(
                RequestResponseOpenOrCreateError::RequestResponseOpenError(
                    RequestResponseOpenError::OutOfMemory,
                ),
            )
        }
    }
}
