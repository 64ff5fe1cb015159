//! The settings of an event service.
ghost use Rattle.std.specs.Prelude.{◌≡◌, ◌↔◌, IsTrue};

use crate::setting::{PatternSetting, Rule, SettingValue, adjusted, are_allowed, with_defaults};
use iox_describe_base::limits::NUMBER_OF_PORTS_END;

/// The settings of an event service.
///
/// Ported from `iceoryx2::service::static_config::event::StaticConfig`.
#[derive(Clone, Copy, Debug, PartialEq, Eq)]
pub struct StaticConfig {
    /// The maximum time between two events, in nanoseconds, if there is one.
    pub deadline: Option<u64>,
    /// The largest event id.
    pub event_id_max_value: u64,
    /// The maximum number of listeners.
    pub max_listeners: u64,
    /// The maximum number of nodes.
    pub max_nodes: u64,
    /// The maximum number of notifiers.
    pub max_notifiers: u64,
    /// The id of the event that announces a new notifier, if there is one.
    pub notifier_created_event: Option<u64>,
    /// The id of the event that announces a dead notifier, if there is one.
    pub notifier_dead_event: Option<u64>,
    /// The id of the event that announces a dropped notifier, if there is one.
    pub notifier_dropped_event: Option<u64>,
}

impl StaticConfig {
    ghost use Rattle.iox_describe_settings.specs.EventSettings.{adjusted, defaults, unset, IsWithinLimits};

    /// The default settings.
    pub fn new() -> Self
        ensures { result ≡ defaults }
    {
        with_defaults::<Setting>(Self::unset())
    }

    /// Settings that are all 0 or none, before the defaults are filled in.
    fn unset() -> Self
        ensures { result ≡ unset }
    {
        StaticConfig {
            deadline: None,
            event_id_max_value: 0,
            max_listeners: 0,
            max_nodes: 0,
            max_notifiers: 0,
            notifier_created_event: None,
            notifier_dead_event: None,
            notifier_dropped_event: None,
        }
    }

    /// The settings for `create`: a 0 that isn't possible becomes 1.
    pub fn adjusted(self) -> Self
        ensures { result ≡ adjusted self }
    {
        adjusted::<Setting>(self)
    }

    /// Whether the numbers are within the limits of a description.
    pub fn is_within_limits(&self) -> bool
        ensures { IsTrue result ↔ IsWithinLimits self.now }
    {
        are_allowed::<Setting>(self)
    }
}

/// A setting of an event service.
#[derive(Clone, Copy)]
pub enum Setting {
    /// `deadline`
    Deadline,
    /// `event_id_max_value`
    EventIdMaxValue,
    /// `max_listeners`
    MaxListeners,
    /// `max_nodes`
    MaxNodes,
    /// `max_notifiers`
    MaxNotifiers,
    /// `notifier_created_event`
    NotifierCreatedEvent,
    /// `notifier_dead_event`
    NotifierDeadEvent,
    /// `notifier_dropped_event`
    NotifierDroppedEvent,
}

impl PatternSetting for Setting {
    ghost use Rattle.std.specs.Prelude.{refl};
    ghost use Rattle.iox_describe_settings.specs.EventSettings.{all, changed, key, rule, value};
    ghost use Rattle.iox_describe_settings.specs.declared.static_config.event.Setting.TheVariants as setting;

    type Config = StaticConfig;

    ghost all = { all };

    ghost key = { key };

    ghost rule = { rule };

    ghost value = { value };

    ghost changed = { changed };

    fn all() -> &'static [Self] {
        &[
            Setting::Deadline,
            Setting::EventIdMaxValue,
            Setting::MaxListeners,
            Setting::MaxNodes,
            Setting::MaxNotifiers,
            Setting::NotifierCreatedEvent,
            Setting::NotifierDeadEvent,
            Setting::NotifierDroppedEvent,
        ]
    }

    fn key(self) -> &'static str {
        match self {
            Setting::Deadline => "deadline",
            Setting::EventIdMaxValue => "event_id_max_value",
            Setting::MaxListeners => "max_listeners",
            Setting::MaxNodes => "max_nodes",
            Setting::MaxNotifiers => "max_notifiers",
            Setting::NotifierCreatedEvent => "notifier_created_event",
            Setting::NotifierDeadEvent => "notifier_dead_event",
            Setting::NotifierDroppedEvent => "notifier_dropped_event",
        }
    }

    fn rule(self) -> Rule {
        match self {
            Setting::Deadline => Rule::OptionalNumber(None),
            Setting::EventIdMaxValue => Rule::number(4_294_967_295, 0, None),
            Setting::MaxListeners => Rule::number(16, 1, None),
            Setting::MaxNodes => Rule::number(36, 1, Some(NUMBER_OF_PORTS_END)),
            Setting::MaxNotifiers => Rule::number(16, 1, None),
            Setting::NotifierCreatedEvent => Rule::OptionalNumber(None),
            Setting::NotifierDeadEvent => Rule::OptionalNumber(None),
            Setting::NotifierDroppedEvent => Rule::OptionalNumber(None),
        }
    }

    fn value(self, config: &StaticConfig) -> SettingValue {
        match self {
            Setting::Deadline => SettingValue::OptionalNumber(config.deadline),
            Setting::EventIdMaxValue => SettingValue::Number(config.event_id_max_value),
            Setting::MaxListeners => SettingValue::Number(config.max_listeners),
            Setting::MaxNodes => SettingValue::Number(config.max_nodes),
            Setting::MaxNotifiers => SettingValue::Number(config.max_notifiers),
            Setting::NotifierCreatedEvent => SettingValue::OptionalNumber(
                config.notifier_created_event,
            ),
            Setting::NotifierDeadEvent => SettingValue::OptionalNumber(config.notifier_dead_event),
            Setting::NotifierDroppedEvent => SettingValue::OptionalNumber(
                config.notifier_dropped_event,
            ),
        }
    }

    fn set(self, config: &mut StaticConfig, to: SettingValue) {
        match (self, to) {
            (Setting::Deadline, SettingValue::OptionalNumber(option)) => config.deadline = option,
            (Setting::EventIdMaxValue, SettingValue::Number(number)) => config.event_id_max_value =
                number,
            (Setting::MaxListeners, SettingValue::Number(number)) => config.max_listeners = number,
            (Setting::MaxNodes, SettingValue::Number(number)) => config.max_nodes = number,
            (Setting::MaxNotifiers, SettingValue::Number(number)) => config.max_notifiers = number,
            (Setting::NotifierCreatedEvent, SettingValue::OptionalNumber(option)) =>
                config.notifier_created_event = option,
            (Setting::NotifierDeadEvent, SettingValue::OptionalNumber(option)) =>
                config.notifier_dead_event = option,
            (Setting::NotifierDroppedEvent, SettingValue::OptionalNumber(option)) =>
                config.notifier_dropped_event = option,
            _ => {}
        }
    }

    ghost in_order = { refl };

    ghost of_kind = { elim
        [ setting.Deadline ↦ λ c. tt | setting.EventIdMaxValue ↦ λ c. tt | setting.MaxListeners ↦ λ c. tt | setting.MaxNodes ↦ λ c. tt | setting.MaxNotifiers ↦ λ c. tt | setting.NotifierCreatedEvent ↦ λ c. tt | setting.NotifierDeadEvent ↦ λ c. tt | setting.NotifierDroppedEvent ↦ λ c. tt ] };

    ghost is_whole = { λ target config. refl };
}
