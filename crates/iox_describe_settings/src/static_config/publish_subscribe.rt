//! The settings of a publish-subscribe service.
ghost use Rattle.std.specs.Prelude.{◌≡◌, ◌↔◌, IsTrue};

use crate::description::Version;
use crate::setting::{PatternSetting, Rule, SettingValue, adjusted, are_allowed, with_defaults};
use iox_describe_base::limits::{NUMBER_OF_PORTS_END, NUMBER_OF_SAMPLES_END};
use iox_describe_base::message_type::MessageTypeDetails;

/// The settings of a publish-subscribe service.
///
/// Ported from `iceoryx2::service::static_config::publish_subscribe::StaticConfig`.
#[derive(Clone, Copy, Debug, PartialEq, Eq)]
pub struct StaticConfig {
    /// Whether a send drops the oldest message of a full buffer instead of blocking the publisher.
    pub enable_safe_overflow: bool,
    /// How many of its last messages a publisher keeps for subscribers that are created later.
    pub history_size: u64,
    /// The maximum number of nodes.
    pub max_nodes: u64,
    /// The maximum number of publishers.
    pub max_publishers: u64,
    /// The maximum number of subscribers.
    pub max_subscribers: u64,
    /// Whether the messages of each publisher have sequence numbers, by which a subscriber detects the messages that it missed.
    pub sequence_numbers: bool,
    /// The maximum number of samples of one publisher that a subscriber may hold.
    pub subscriber_max_borrowed_samples: u64,
    /// The maximum number of waiting messages of one publisher per subscriber.
    pub subscriber_max_buffer_size: u64,
    /// The types of the messages.
    pub types: MessageTypeDetails,
}

impl StaticConfig {
    ghost use Rattle.iox_describe_settings.specs.PublishSubscribeSettings.{adjusted, defaults, unset, IsWithinLimits, IsHistoryTooLong};

    /// The default settings, for these types.
    pub fn new(types: MessageTypeDetails) -> Self
        ensures { result ≡ defaults types }
    {
        with_defaults::<Setting>(Self::unset(types))
    }

    /// Settings that are all 0 or false, except for the types, before the defaults are filled in.
    fn unset(types: MessageTypeDetails) -> Self
        ensures { result ≡ unset types }
    {
        StaticConfig {
            enable_safe_overflow: false,
            history_size: 0,
            max_nodes: 0,
            max_publishers: 0,
            max_subscribers: 0,
            sequence_numbers: false,
            subscriber_max_borrowed_samples: 0,
            subscriber_max_buffer_size: 0,
            types,
        }
    }

    /// The settings for `create`: a 0 that isn't possible becomes 1.
    pub fn adjusted(self) -> Self
        ensures { result ≡ adjusted self }
    {
        adjusted::<Setting>(self)
    }

    /// Whether the numbers are within the limits of a description.
    pub fn is_within_limits(&self) -> bool
        ensures { IsTrue result ↔ IsWithinLimits self.now }
    {
        are_allowed::<Setting>(self)
    }

    /// Whether the history doesn't fit into a buffer that blocks the publisher when it is full, so that no subscriber could receive all of
    /// it.
    pub fn is_history_too_long(&self) -> bool
        ensures { IsTrue result ↔ IsHistoryTooLong self.now }
    {
        !self.enable_safe_overflow && self.subscriber_max_buffer_size < self.history_size
    }
}

/// A setting of a publish-subscribe service.
#[derive(Clone, Copy)]
pub enum Setting {
    /// `enable_safe_overflow`
    EnableSafeOverflow,
    /// `history_size`
    HistorySize,
    /// `max_nodes`
    MaxNodes,
    /// `max_publishers`
    MaxPublishers,
    /// `max_subscribers`
    MaxSubscribers,
    /// `sequence_numbers`
    SequenceNumbers,
    /// `subscriber_max_borrowed_samples`
    SubscriberMaxBorrowedSamples,
    /// `subscriber_max_buffer_size`
    SubscriberMaxBufferSize,
    /// `types`
    Types,
}

impl Setting {
    ghost use Rattle.iox_describe_settings.specs.PublishSubscribeSettings.{written};

    /// The settings that a line of this version has, in rising order of the bytes of their keys.
    pub fn written(version: Version) -> &'static [Setting]
        ensures { result.now ≡ written version }
    {
        match version {
            Version::One => &[
                Setting::EnableSafeOverflow,
                Setting::HistorySize,
                Setting::MaxNodes,
                Setting::MaxPublishers,
                Setting::MaxSubscribers,
                Setting::SubscriberMaxBorrowedSamples,
                Setting::SubscriberMaxBufferSize,
                Setting::Types,
            ],
            Version::Two => Self::all(),
        }
    }
}

impl PatternSetting for Setting {
    ghost use Rattle.std.specs.Prelude.{refl};
    ghost use Rattle.iox_describe_settings.specs.PublishSubscribeSettings.{all, changed, key, rule, value};
    ghost use Rattle.iox_describe_settings.specs.declared.static_config.publish_subscribe.Setting.TheVariants as setting;

    type Config = StaticConfig;

    ghost all = { all };

    ghost key = { key };

    ghost rule = { rule };

    ghost value = { value };

    ghost changed = { changed };

    fn all() -> &'static [Self] {
        &[
            Setting::EnableSafeOverflow,
            Setting::HistorySize,
            Setting::MaxNodes,
            Setting::MaxPublishers,
            Setting::MaxSubscribers,
            Setting::SequenceNumbers,
            Setting::SubscriberMaxBorrowedSamples,
            Setting::SubscriberMaxBufferSize,
            Setting::Types,
        ]
    }

    fn key(self) -> &'static str {
        match self {
            Setting::EnableSafeOverflow => "enable_safe_overflow",
            Setting::HistorySize => "history_size",
            Setting::MaxNodes => "max_nodes",
            Setting::MaxPublishers => "max_publishers",
            Setting::MaxSubscribers => "max_subscribers",
            Setting::SequenceNumbers => "sequence_numbers",
            Setting::SubscriberMaxBorrowedSamples => "subscriber_max_borrowed_samples",
            Setting::SubscriberMaxBufferSize => "subscriber_max_buffer_size",
            Setting::Types => "types",
        }
    }

    fn rule(self) -> Rule {
        match self {
            Setting::EnableSafeOverflow => Rule::Switch(true),
            Setting::HistorySize => Rule::number(0, 0, Some(NUMBER_OF_SAMPLES_END)),
            Setting::MaxNodes => Rule::number(20, 1, Some(NUMBER_OF_PORTS_END)),
            Setting::MaxPublishers => Rule::number(2, 1, Some(NUMBER_OF_PORTS_END)),
            Setting::MaxSubscribers => Rule::number(8, 1, Some(NUMBER_OF_PORTS_END)),
            Setting::SequenceNumbers => Rule::Switch(false),
            Setting::SubscriberMaxBorrowedSamples => Rule::number(
                2,
                1,
                Some(NUMBER_OF_SAMPLES_END),
            ),
            Setting::SubscriberMaxBufferSize => Rule::number(2, 1, Some(NUMBER_OF_SAMPLES_END)),
            Setting::Types => Rule::Types,
        }
    }

    fn value(self, config: &StaticConfig) -> SettingValue {
        match self {
            Setting::EnableSafeOverflow => SettingValue::Switch(config.enable_safe_overflow),
            Setting::HistorySize => SettingValue::Number(config.history_size),
            Setting::MaxNodes => SettingValue::Number(config.max_nodes),
            Setting::MaxPublishers => SettingValue::Number(config.max_publishers),
            Setting::MaxSubscribers => SettingValue::Number(config.max_subscribers),
            Setting::SequenceNumbers => SettingValue::Switch(config.sequence_numbers),
            Setting::SubscriberMaxBorrowedSamples => SettingValue::Number(
                config.subscriber_max_borrowed_samples,
            ),
            Setting::SubscriberMaxBufferSize => SettingValue::Number(
                config.subscriber_max_buffer_size,
            ),
            Setting::Types => SettingValue::Types(config.types),
        }
    }

    fn set(self, config: &mut StaticConfig, to: SettingValue) {
        match (self, to) {
            (Setting::EnableSafeOverflow, SettingValue::Switch(switch)) =>
                config.enable_safe_overflow = switch,
            (Setting::HistorySize, SettingValue::Number(number)) => config.history_size = number,
            (Setting::MaxNodes, SettingValue::Number(number)) => config.max_nodes = number,
            (Setting::MaxPublishers, SettingValue::Number(number)) => config.max_publishers =
                number,
            (Setting::MaxSubscribers, SettingValue::Number(number)) => config.max_subscribers =
                number,
            (Setting::SequenceNumbers, SettingValue::Switch(switch)) => config.sequence_numbers =
                switch,
            (Setting::SubscriberMaxBorrowedSamples, SettingValue::Number(number)) =>
                config.subscriber_max_borrowed_samples = number,
            (Setting::SubscriberMaxBufferSize, SettingValue::Number(number)) =>
                config.subscriber_max_buffer_size = number,
            (Setting::Types, SettingValue::Types(types)) => config.types = types,
            _ => {}
        }
    }

    ghost in_order = { refl };

    ghost of_kind = { elim
        [ setting.EnableSafeOverflow ↦ λ c. tt | setting.HistorySize ↦ λ c. tt | setting.MaxNodes ↦ λ c. tt | setting.MaxPublishers ↦ λ c. tt | setting.MaxSubscribers ↦ λ c. tt | setting.SequenceNumbers ↦ λ c. tt | setting.SubscriberMaxBorrowedSamples ↦ λ c. tt | setting.SubscriberMaxBufferSize ↦ λ c. tt | setting.Types ↦ λ c. tt ] };

    ghost is_whole = { λ target config. refl };
}
