//! The service that another node publishes.
ghost use Rattle.std.specs.Prelude.{◌≡◌, []};
ghost use Rattle.iox_negotiate_table.specs.Describe.Within.{HasForm};
ghost use Rattle.iox_hub_commands.specs.Asking.{agreed_of};
ghost use Rattle.iox_machine.specs.Asked.{settings_of};

use crate::services::requests::asked::{event, publish_subscribe, request_response};
use iox_command::ServiceOptions;
use iox_describe::has_form;
use iox_describe::pattern::{Event, Pattern, PublishSubscribe, RequestResponse};
use iox_describe_base::{AttributeSpecifier, MessageTypeDetails, ServiceName, service_hash};
use iox_describe_settings::{Description, Settings};

/// The description that another node publishes with these options: the defaults for what isn't named, adjusted, and no attributes. It has
/// the form of a description, and takes no memory.
pub fn description(
    name: &ServiceName,
    options: &ServiceOptions,
    types: &MessageTypeDetails,
) -> Description
    ensures value { result ≡ agreed_of name.now options.now types.now [] }
    ensures form { HasForm result }
{
    let hash = service_hash(options.pattern(), name);
    let settings = settings(options, *types);
    let described = Description::of_parts(*name, hash, settings, AttributeSpecifier::new());
    has_form(&described);
    described
}

// The settings with which a service with these options is created.
fn settings(options: &ServiceOptions, types: MessageTypeDetails) -> Settings
    ensures { result ≡ settings_of types options.now }
{
    match options {
        ServiceOptions::PublishSubscribe(options) => {
            created_settings::<PublishSubscribe>(&publish_subscribe(options, types))
        }
        ServiceOptions::Event(options) => created_settings::<Event>(&event(options)),
        ServiceOptions::RequestResponse(options) => {
            created_settings::<RequestResponse>(&request_response(options, types))
        }
    }
}

// The settings with which a service of a pattern with this requirement is created.
fn created_settings<P: Pattern>(requirement: &P::Requirement) -> Settings
    ensures { result ≡ P.settings (P.adjusted (P.asked requirement.now)) }
{
    P::settings(P::adjusted(P::asked(requirement)))
}
