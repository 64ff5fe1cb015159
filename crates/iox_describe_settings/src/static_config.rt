//! The settings of a service, by its messaging pattern.
ghost use Rattle.std.specs.Prelude.{◌≡◌, ◌↔◌, IsTrue};

use crate::setting::are_same;
use iox_describe_base::pattern::MessagingPattern;

pub mod event;
pub mod publish_subscribe;
pub mod request_response;

/// The settings of a service, of one of the three patterns.
///
/// Ported from `iceoryx2::service::static_config::messaging_pattern::MessagingPattern`.
#[derive(Clone, Copy, Debug)]
pub enum Settings {
    /// The settings of a request-response service.
    RequestResponse(request_response::StaticConfig),
    /// The settings of a publish-subscribe service.
    PublishSubscribe(publish_subscribe::StaticConfig),
    /// The settings of an event service.
    Event(event::StaticConfig),
}

impl Settings {
    ghost use Rattle.iox_describe_settings.specs.Agreement.{max_nodes_of, pattern_of};
    ghost use Rattle.iox_describe_settings.specs.Agreement.{AreWithinLimits, HasNoRoomForHistory};

    /// The messaging pattern of the settings.
    pub fn pattern(&self) -> MessagingPattern
        ensures { result ≡ pattern_of self.now }
    {
        match self {
            Settings::RequestResponse(_) => MessagingPattern::RequestResponse,
            Settings::PublishSubscribe(_) => MessagingPattern::PublishSubscribe,
            Settings::Event(_) => MessagingPattern::Event,
        }
    }

    /// The maximum number of nodes of the service.
    pub fn max_nodes(&self) -> u64
        ensures { result ≡ max_nodes_of self.now }
    {
        match self {
            Settings::RequestResponse(config) => config.max_nodes,
            Settings::PublishSubscribe(config) => config.max_nodes,
            Settings::Event(config) => config.max_nodes,
        }
    }

    /// Whether the numbers are within the limits of a description.
    pub fn are_within_limits(&self) -> bool
        ensures { IsTrue result ↔ AreWithinLimits self.now }
    {
        match self {
            Settings::RequestResponse(config) => config.is_within_limits(),
            Settings::PublishSubscribe(config) => config.is_within_limits(),
            Settings::Event(config) => config.is_within_limits(),
        }
    }

    /// Whether the history doesn't fit into a buffer that blocks the publisher when it is full; a service with such settings can't be
    /// created. It is false for patterns without a history.
    pub fn is_history_too_long(&self) -> bool
        ensures { IsTrue result ↔ HasNoRoomForHistory self.now }
    {
        match self {
            Settings::PublishSubscribe(config) => config.is_history_too_long(),
            _ => false,
        }
    }
}

/// Two values are equal if they are settings of the same pattern and each setting is equal.
impl PartialEq for Settings {
    ghost use Rattle.std.specs.Cmp.{partial_equiv_from_equiv};
    ghost use Rattle.iox_describe_settings.specs.SameAgreement.{same_settings, same_settings_laws};

    ghost eq = { same_settings };

    ghost laws = { partial_equiv_from_equiv same_settings_laws };

    fn eq(&self, other: &Self) -> bool
        ensures same { result ≡ same_settings self.now other.now }
        ensures exact { IsTrue result ↔ (self.now ≡ other.now) }
    {
        self.is_same(other)
    }
}

impl Eq for Settings {
    ghost use Rattle.iox_describe_settings.specs.SameAgreement.{same_settings_laws};

    ghost laws = { same_settings_laws };
}

impl Settings {
    ghost use Rattle.iox_describe_settings.specs.SameAgreement.{same_settings};

    /// Whether both are settings of the same pattern and each setting is equal.
    fn is_same(&self, other: &Self) -> bool
        ensures { result ≡ same_settings self.now other.now }
    {
        match (self, other) {
            (Settings::RequestResponse(first), Settings::RequestResponse(second)) => are_same::<
                request_response::Setting,
            >(first, second),
            (Settings::PublishSubscribe(first), Settings::PublishSubscribe(second)) => are_same::<
                publish_subscribe::Setting,
            >(first, second),
            (Settings::Event(first), Settings::Event(second)) => are_same::<event::Setting>(
                first, second,
            ),
            _ => false,
        }
    }
}
