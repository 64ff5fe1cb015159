//! The service that a line names.
ghost use Rattle.std.specs.Prelude.{◌≡◌};
ghost use Rattle.iox_line.specs.ServicesReading.{options_of, service_of};

use crate::services::options::{event, publish_subscribe, request_response};
use crate::services::value::{name, pattern};
use crate::text::Words;
use crate::text::number::numbered;
use iox_command::ServiceOptions;
use iox_describe_base::{MessagingPattern, ServiceName};

/// A service, as a line names it.
///
/// Not in `iceoryx2`.
#[derive(Drop)]
pub struct NamedService<'a> {
    /// The number of the node.
    pub node: u64,
    /// The name of the service.
    pub name: ServiceName,
    /// The options of the service.
    pub options: ServiceOptions,
    /// The words of attributes: those after the options, from the first on that begins with `@`.
    pub attributes: Words<'a>,
    /// The words of lists of actions: those from the first on that begins with `|`.
    pub lists: Words<'a>,
}

/// The service that the words after the verb of a line name.
pub fn named_service<'a>(words: Words<'a>) -> Option<NamedService<'a>>
    ensures { result ≡ service_of words.entry }
{
    let mut words = words;
    let Some(node) = words.next() else {
        return None;
    };
    let Some(kind) = words.next() else {
        return None;
    };
    let Some(called) = words.next() else {
        return None;
    };
    let node = numbered(b'n', node)?;
    let kind = pattern(kind)?;
    let name = name(called)?;
    let (before, lists) = words.cut(b'|');
    let (chosen, attributes) = before.cut(b'@');
    let options = service_options(kind, &chosen)?;
    Some(NamedService {
        node,
        name,
        options,
        attributes,
        lists,
    })
}

/// The options of a service of this pattern; `None` if a word isn't an option, or an option is named twice.
pub fn service_options(pattern: MessagingPattern, words: &Words) -> Option<ServiceOptions>
    ensures { result ≡ options_of pattern words.now }
{
    match pattern {
        MessagingPattern::PublishSubscribe => {
            let options = publish_subscribe(words)?;
            Some(ServiceOptions::PublishSubscribe(options))
        }
        MessagingPattern::Event => {
            let options = event(words)?;
            Some(ServiceOptions::Event(options))
        }
        MessagingPattern::RequestResponse => {
            let options = request_response(words)?;
            Some(ServiceOptions::RequestResponse(options))
        }
    }
}
