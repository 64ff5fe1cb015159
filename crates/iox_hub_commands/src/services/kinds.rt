//! The patterns of the services that commands create and open: what options of each ask, and how its errors are reported.
ghost use Rattle.std.specs.Prelude.{◌≡◌};
ghost use Rattle.iox_command.specs.declared.refusal.Refusal.{Refusal};
ghost use Rattle.iox_hub_base.specs.DescribeBase.declared.message_type.MessageTypeDetails.{MessageTypeDetails};

use crate::services::requests;
use iox_command::{EventOptions, PublishSubscribeOptions, Refusal, RequestResponseOptions};
use iox_describe::pattern::{Event, PublishSubscribe, RequestResponse};
use iox_describe_base::MessageTypeDetails;
use iox_negotiate::Negotiated;
use iox_negotiate_base::errors::{
    EventCreateError, EventOpenError, EventOpenOrCreateError, PublishSubscribeCreateError,
    PublishSubscribeOpenError, PublishSubscribeOpenOrCreateError, RequestResponseCreateError,
    RequestResponseOpenError, RequestResponseOpenOrCreateError,
};

/// A pattern whose services commands create and open.
pub(crate) trait CommandPattern: Negotiated {
    /// The options of a service that a command names.
    type Options;

    // the requirement of these options, for a service whose messages have these types
    ghost asks: { Self.Options → MessageTypeDetails → Self.Requirement };

    // the refusal if a service isn't created
    ghost create_refusal: { Self.CreateError → Refusal };

    // the refusal if a service isn't opened
    ghost open_refusal: { Self.OpenError → Refusal };

    // the refusal if a service is neither opened nor created
    ghost either_refusal: { Self.OpenOrCreateError → Refusal };

    /// The requirement of these options, for a service whose messages have these types.
    fn requirement(options: &Self::Options, types: MessageTypeDetails) -> Self::Requirement
        ensures { result ≡ asks options.now types };

    /// The refusal if a service isn't created.
    fn create_refusal(error: Self::CreateError) -> Refusal
        ensures { result ≡ create_refusal error };

    /// The refusal if a service isn't opened.
    fn open_refusal(error: Self::OpenError) -> Refusal
        ensures { result ≡ open_refusal error };

    /// The refusal if a service is neither opened nor created.
    fn either_refusal(error: Self::OpenOrCreateError) -> Refusal
        ensures { result ≡ either_refusal error };
}

impl CommandPattern for PublishSubscribe {
    ghost use Rattle.iox_command.specs.declared.refusal.Refusal.TheVariants as refusal;
    ghost use Rattle.std.specs.Prelude.{[]};
    ghost use Rattle.iox_hub_base.specs.DescribeBase.Attributes.{required};
    ghost use Rattle.iox_hub_commands.specs.Asked.{required_publish_subscribe};

    type Options = PublishSubscribeOptions;

    ghost asks = { λ options types. required_publish_subscribe options types (required [] []) };

    ghost create_refusal = { refusal.PublishSubscribeCreate };

    ghost open_refusal = { refusal.PublishSubscribeOpen };

    ghost either_refusal = { refusal.PublishSubscribeOpenOrCreate };

    fn requirement(options: &Self::Options, types: MessageTypeDetails) -> Self::Requirement {
        requests::publish_subscribe(options, types)
    }

    fn create_refusal(error: PublishSubscribeCreateError) -> Refusal {
        Refusal::PublishSubscribeCreate(error)
    }

    fn open_refusal(error: PublishSubscribeOpenError) -> Refusal {
        Refusal::PublishSubscribeOpen(error)
    }

    fn either_refusal(error: PublishSubscribeOpenOrCreateError) -> Refusal {
        Refusal::PublishSubscribeOpenOrCreate(error)
    }
}

impl CommandPattern for Event {
    ghost use Rattle.iox_command.specs.declared.refusal.Refusal.TheVariants as refusal;
    ghost use Rattle.std.specs.Prelude.{[]};
    ghost use Rattle.iox_hub_base.specs.DescribeBase.Attributes.{required};
    ghost use Rattle.iox_hub_commands.specs.Asked.{required_event};

    type Options = EventOptions;

    ghost asks = { λ options types. required_event options (required [] []) };

    ghost create_refusal = { refusal.EventCreate };

    ghost open_refusal = { refusal.EventOpen };

    ghost either_refusal = { refusal.EventOpenOrCreate };

    fn requirement(options: &Self::Options, _types: MessageTypeDetails) -> Self::Requirement {
        requests::event(options)
    }

    fn create_refusal(error: EventCreateError) -> Refusal {
        Refusal::EventCreate(error)
    }

    fn open_refusal(error: EventOpenError) -> Refusal {
        Refusal::EventOpen(error)
    }

    fn either_refusal(error: EventOpenOrCreateError) -> Refusal {
        Refusal::EventOpenOrCreate(error)
    }
}

impl CommandPattern for RequestResponse {
    ghost use Rattle.iox_command.specs.declared.refusal.Refusal.TheVariants as refusal;
    ghost use Rattle.std.specs.Prelude.{[]};
    ghost use Rattle.iox_hub_base.specs.DescribeBase.Attributes.{required};
    ghost use Rattle.iox_hub_commands.specs.Asked.{required_request_response};

    type Options = RequestResponseOptions;

    ghost asks = { λ options types. required_request_response options types (required [] []) };

    ghost create_refusal = { refusal.RequestResponseCreate };

    ghost open_refusal = { refusal.RequestResponseOpen };

    ghost either_refusal = { refusal.RequestResponseOpenOrCreate };

    fn requirement(options: &Self::Options, types: MessageTypeDetails) -> Self::Requirement {
        requests::request_response(options, types)
    }

    fn create_refusal(error: RequestResponseCreateError) -> Refusal {
        Refusal::RequestResponseCreate(error)
    }

    fn open_refusal(error: RequestResponseOpenError) -> Refusal {
        Refusal::RequestResponseOpen(error)
    }

    fn either_refusal(error: RequestResponseOpenOrCreateError) -> Refusal {
        Refusal::RequestResponseOpenOrCreate(error)
    }
}
