//! A messaging pattern, with everything that creating and opening a service needs of it.
ghost use Rattle.std.specs.Prelude.{◌≡◌, ◌≤◌, ◌<◌, ◌^◌, ◌↔◌, List, [], Option, Result, Ok, Some};
ghost use Rattle.std.specs.Prelude.{IsOk, IfOk, IsSome, IsTrue, option_copied, refl};
ghost use Rattle.iox_describe_settings.specs.DescribeBase.declared.pattern.MessagingPattern.{MessagingPattern};
ghost use Rattle.iox_describe_settings.specs.DescribeBase.declared.pattern.MessagingPattern.TheVariants as messaging_pattern;
ghost use Rattle.iox_describe_settings.specs.DescribeBase.Attributes.{Required, required};
ghost use Rattle.iox_describe_settings.specs.declared.static_config.Settings.{Settings};
ghost use Rattle.iox_describe_settings.specs.declared.static_config.Settings.TheVariants as settings_of;
ghost use Rattle.iox_describe_settings.specs.Agreement.{Agreement, max_nodes_of, pattern_of, AreWithinLimits};
ghost use Rattle.iox_describe_settings.specs.Agreement.{HasNoRoomForHistory};
ghost use Rattle.iox_describe_verdict.specs.Patterns as patterns;

use iox_describe_base::pattern::MessagingPattern;
use iox_describe_base::verifier::AttributeVerifier;
use iox_describe_settings::description::Description;
use iox_describe_settings::static_config::{Settings, event, publish_subscribe, request_response};
use std::alloc::{AllocError, Global};

/// A messaging pattern, with the type of its services' settings.
pub trait AgreedPattern {
    /// The settings of a service.
    type StaticConfig: Copy;

    // the pattern
    ghost pattern: { MessagingPattern };

    // the settings, as those of any pattern
    ghost settings: { Self.StaticConfig → Settings };

    // the settings, if they are of this pattern
    ghost static_config: { Settings → Option Self.StaticConfig };

    /// The messaging pattern that this type stands for.
    fn pattern() -> MessagingPattern
        ensures { result ≡ pattern };

    /// The settings, as those of any pattern.
    fn settings(config: Self::StaticConfig) -> Settings
        ensures { result ≡ settings config };

    /// The settings, if they are of this pattern; else `None`.
    fn static_config(given: &Settings) -> Option<Self::StaticConfig>
        ensures { result ≡ static_config given.now };

    /// The settings as a part of these, if they are of this pattern; else `None`.
    fn static_config_in(given: &Settings) -> Option<&Self::StaticConfig>
        ensures { option_copied result ≡ static_config given.now };

    // settings made from those of this pattern are of this pattern
    ghost settings_are_of_pattern: { (config : Self.StaticConfig) → pattern_of (settings config) ≡ pattern };

    // converting settings to those of any pattern and back gives the same settings
    ghost found_again: { (config : Self.StaticConfig) → static_config (settings config) ≡ Some config };

    // converting settings to those of this pattern and back gives the same settings
    ghost found: { (s : Settings) (config : Self.StaticConfig) → static_config s ≡ Some config → settings config ≡ s };
}

/// A messaging pattern, with what an opener or a creator asks of a service.
pub trait RequiredPattern: AgreedPattern {
    /// What an opener or a creator asks of a service.
    type Requirement: Drop;

    /// Why a service can't be opened: the first clause of the requirement that isn't met.
    type ClauseError: Copy;

    // the attributes that a service must have
    ghost attributes: { Self.Requirement → Required };

    // the requirement with its attributes replaced by these
    ghost with_attributes: { Self.Requirement → Required → Self.Requirement };

    // the settings that are asked for; a setting that isn't named has its default
    ghost asked: { Self.Requirement → Self.StaticConfig };

    // the error of the first clause that isn't met
    ghost verdict: { Self.Requirement → Agreement → Result (Unit {0}) Self.ClauseError };

    // the first requirement asks at most what the second asks
    ghost IsWeaker: { Self.Requirement → Self.Requirement → Type 0 };

    /// The attributes that a service must have; a created service gets the required pairs.
    fn attributes(requirement: &Self::Requirement) -> &AttributeVerifier
        ensures { result.now ≡ attributes requirement.now };

    /// The requirement with its attributes replaced by these.
    /// Example: `PublishSubscribe::with_attributes(requirement, attributes)`
    fn with_attributes(
        requirement: Self::Requirement,
        verifier: AttributeVerifier,
    ) -> Self::Requirement
        ensures { result ≡ with_attributes requirement verifier };

    /// The settings that are asked for; a setting that isn't named has its default.
    fn asked(requirement: &Self::Requirement) -> Self::StaticConfig
        ensures { result ≡ asked requirement.now };

    /// Checks whether the described service meets every clause. The error is that of the first clause that isn't met.
    fn verdict(
        requirement: &Self::Requirement,
        description: &Description,
    ) -> Result<(), Self::ClauseError>
        ensures { result ≡ verdict requirement.now description.now };

    /// A copy of the requirement in memory of its own. It fails only if an allocation fails, and never without attributes.
    fn try_clone(
        requirement: &Self::Requirement,
        alloc: Global,
    ) -> Result<Self::Requirement, AllocError>
        ensures same { IfOk result (λ copy. copy ≡ requirement.now) }
        ensures empty { attributes requirement.now ≡ required [] [] → IsOk result };

    // a service that meets a requirement meets every weaker one
    ghost weaker_is_met: { (weak strong : Self.Requirement) (a : Agreement) → IsWeaker weak strong → verdict strong a ≡ Ok tt
        → verdict weak a ≡ Ok tt };

    // a service that meets a requirement of this pattern is a service of this pattern
    ghost met_is_of_pattern: { (requirement : Self.Requirement) (a : Agreement) → verdict requirement a ≡ Ok tt
        → IsSome (Self.static_config a.settings) };
}

/// A messaging pattern: the settings of its services, and what an opener may require of them.
///
/// Builders are generic over this trait, so that one builder serves all patterns.
pub trait Pattern: RequiredPattern {
    // the settings with which a service is created: each number is at least the least possible one
    ghost adjusted: { Self.StaticConfig → Self.StaticConfig };

    /// The settings with which a service is created: a 0 that isn't possible becomes 1.
    fn adjusted(config: Self::StaticConfig) -> Self::StaticConfig
        ensures { result ≡ adjusted config };

    // settings within the limits have at least 1 node and fewer than 2^24
    ghost has_nodes: { (config : Self.StaticConfig) → AreWithinLimits (Self.settings config) → (1 ≤ max_nodes_of (Self.settings config))
        × (max_nodes_of (Self.settings config) < 2 ^ 24) } = { λ config. patterns.has_nodes (Self.settings config) };

    /// Whether the numbers are within the limits of a description, so that a service can be created with them.
    final fn is_within_limits(config: &Self::StaticConfig) -> bool
        ensures { IsTrue result ↔ AreWithinLimits (Self.settings config.now) }
    {
        Self::settings(*config).are_within_limits()
    }

    /// Whether the history doesn't fit into a buffer that blocks the publisher when it is full; a service with such settings can't be
    /// created. It is false for patterns without a history.
    final fn is_history_too_long(config: &Self::StaticConfig) -> bool
        ensures { IsTrue result ↔ HasNoRoomForHistory (Self.settings config.now) }
    {
        Self::settings(*config).is_history_too_long()
    }
}

/// The settings of the described service, if it is of this pattern; else `None`.
pub fn static_config_of<P: Pattern>(description: &Description) -> Option<P::StaticConfig>
    ensures { result ≡ P.static_config description.now.settings }
{
    P::static_config(description.settings())
}

/// Publishers send messages to subscribers.
#[derive(Clone, Copy, Debug, PartialEq, Eq)]
pub struct PublishSubscribe;

impl AgreedPattern for PublishSubscribe {
    type StaticConfig = publish_subscribe::StaticConfig;

    ghost pattern = { messaging_pattern.PublishSubscribe };

    ghost settings = { settings_of.PublishSubscribe };

    ghost static_config = { patterns.publish_subscribe_of };

    fn pattern() -> MessagingPattern {
        MessagingPattern::PublishSubscribe
    }

    fn settings(config: Self::StaticConfig) -> Settings {
        Settings::PublishSubscribe(config)
    }

    fn static_config(given: &Settings) -> Option<Self::StaticConfig> {
        match given {
            Settings::PublishSubscribe(config) => Some(*config),
            _ => None,
        }
    }

    fn static_config_in(given: &Settings) -> Option<&Self::StaticConfig> {
        match given {
            Settings::PublishSubscribe(config) => Some(config),
            _ => None,
        }
    }

    ghost settings_are_of_pattern = { λ config. refl };

    ghost found_again = { λ config. refl };

    ghost found = { patterns.found_publish_subscribe };
}

impl Pattern for PublishSubscribe {
    ghost use Rattle.iox_describe_settings.specs.PublishSubscribeSettings as config_of;

    ghost adjusted = { config_of.adjusted };

    fn adjusted(config: Self::StaticConfig) -> Self::StaticConfig {
        config.adjusted()
    }
}

/// Notifiers wake listeners.
#[derive(Clone, Copy, Debug, PartialEq, Eq)]
pub struct Event;

impl AgreedPattern for Event {
    type StaticConfig = event::StaticConfig;

    ghost pattern = { messaging_pattern.Event };

    ghost settings = { settings_of.Event };

    ghost static_config = { patterns.event_of };

    fn pattern() -> MessagingPattern {
        MessagingPattern::Event
    }

    fn settings(config: Self::StaticConfig) -> Settings {
        Settings::Event(config)
    }

    fn static_config(given: &Settings) -> Option<Self::StaticConfig> {
        match given {
            Settings::Event(config) => Some(*config),
            _ => None,
        }
    }

    fn static_config_in(given: &Settings) -> Option<&Self::StaticConfig> {
        match given {
            Settings::Event(config) => Some(config),
            _ => None,
        }
    }

    ghost settings_are_of_pattern = { λ config. refl };

    ghost found_again = { λ config. refl };

    ghost found = { patterns.found_event };
}

impl Pattern for Event {
    ghost use Rattle.iox_describe_settings.specs.EventSettings as config_of;

    ghost adjusted = { config_of.adjusted };

    fn adjusted(config: Self::StaticConfig) -> Self::StaticConfig {
        config.adjusted()
    }
}

/// Clients send requests, and servers answer them.
#[derive(Clone, Copy, Debug, PartialEq, Eq)]
pub struct RequestResponse;

impl AgreedPattern for RequestResponse {
    type StaticConfig = request_response::StaticConfig;

    ghost pattern = { messaging_pattern.RequestResponse };

    ghost settings = { settings_of.RequestResponse };

    ghost static_config = { patterns.request_response_of };

    fn pattern() -> MessagingPattern {
        MessagingPattern::RequestResponse
    }

    fn settings(config: Self::StaticConfig) -> Settings {
        Settings::RequestResponse(config)
    }

    fn static_config(given: &Settings) -> Option<Self::StaticConfig> {
        match given {
            Settings::RequestResponse(config) => Some(*config),
            _ => None,
        }
    }

    fn static_config_in(given: &Settings) -> Option<&Self::StaticConfig> {
        match given {
            Settings::RequestResponse(config) => Some(config),
            _ => None,
        }
    }

    ghost settings_are_of_pattern = { λ config. refl };

    ghost found_again = { λ config. refl };

    ghost found = { patterns.found_request_response };
}

impl Pattern for RequestResponse {
    ghost use Rattle.iox_describe_settings.specs.RequestResponseSettings as config_of;

    ghost adjusted = { config_of.adjusted };

    fn adjusted(config: Self::StaticConfig) -> Self::StaticConfig {
        config.adjusted()
    }
}
