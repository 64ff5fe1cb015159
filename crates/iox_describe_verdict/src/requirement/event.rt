//! What an opener requires of an event service.
ghost use Rattle.std.specs.Prelude.{◌≡◌};

use crate::pattern::{Event, RequiredPattern};
use crate::requirement::{RequiredSetting, first_unmet, is_number_met, is_optional_number_met};
use iox_describe_base::verifier::AttributeVerifier;
use iox_describe_settings::description::Description;
use iox_describe_settings::static_config::Settings;
use iox_describe_settings::static_config::event::{Setting, StaticConfig};
use std::alloc::{AllocError, Global};
use std::fmt;
use thiserror::Error;

/// Why an event service can't be opened: the first clause of the requirement that isn't met. The variants are in the order in which the
/// clauses are tested.
#[derive(Clone, Copy, Debug, PartialEq, Eq, PartialOrd, Ord, Error)]
pub enum ClauseError {
    /// The service has another messaging pattern.
    IncompatibleMessagingPattern,
    /// A required attribute or key is missing.
    IncompatibleAttributes,
    /// The option `deadline` differs.
    IncompatibleDeadline,
    /// The service permits fewer notifiers than required.
    DoesNotSupportRequestedAmountOfNotifiers,
    /// The service permits fewer listeners than required.
    DoesNotSupportRequestedAmountOfListeners,
    /// The service's largest event id is below the required one.
    DoesNotSupportRequestedMaxEventId,
    /// The option `notifier_created_event` differs.
    IncompatibleNotifierCreatedEvent,
    /// The option `notifier_dropped_event` differs.
    IncompatibleNotifierDroppedEvent,
    /// The option `notifier_dead_event` differs.
    IncompatibleNotifierDeadEvent,
    /// The service permits fewer nodes than required.
    DoesNotSupportRequestedAmountOfNodes,
}

/// Shows the names of the type and of the variant, joined by `::`.
impl fmt::Display for ClauseError {
    fn fmt<W: fmt::Write>(&self, f: &mut fmt::Formatter<W>) -> fmt::Result {
        write!(f, "ClauseError::{self:?}")
    }
}

/// What an opener requires of an event service. A setting that is `None` isn't named, and isn't tested.
#[derive(Drop)]
pub struct Requirement {
    /// The attributes that the service must have.
    pub attributes: AttributeVerifier,
    /// The deadline that the service must have, or none.
    pub deadline: Option<Option<u64>>,
    /// The service's maximum number of notifiers must be at least this.
    pub max_notifiers: Option<u64>,
    /// The service's maximum number of listeners must be at least this.
    pub max_listeners: Option<u64>,
    /// The service's largest event id must be at least this.
    pub event_id_max_value: Option<u64>,
    /// The event for a new notifier that the service must have, or none.
    pub notifier_created_event: Option<Option<u64>>,
    /// The event for a dropped notifier that the service must have, or none.
    pub notifier_dropped_event: Option<Option<u64>>,
    /// The event for a dead notifier that the service must have, or none.
    pub notifier_dead_event: Option<Option<u64>>,
    /// The service's maximum number of nodes must be at least this.
    pub max_nodes: Option<u64>,
}

impl Requirement {
    ghost use Rattle.iox_describe_verdict.specs.EventClauses.{unnamed};

    /// A requirement that names no setting.
    pub fn new(attributes: AttributeVerifier) -> Self
        ensures { result ≡ unnamed attributes }
    {
        Requirement {
            attributes,
            deadline: None,
            max_notifiers: None,
            max_listeners: None,
            event_id_max_value: None,
            notifier_created_event: None,
            notifier_dropped_event: None,
            notifier_dead_event: None,
            max_nodes: None,
        }
    }
}

impl RequiredPattern for Event {
    ghost use Rattle.iox_describe_verdict.specs.Verdict.{first_unmet};
    ghost use Rattle.iox_describe_verdict.specs.EventClauses.{asked, asked_fields, clauses, IsWeaker};
    ghost use Rattle.iox_describe_verdict.specs.EventLaws.{met_is_of_pattern, weaker};

    type Requirement = Requirement;

    type ClauseError = ClauseError;

    ghost attributes = { λ r. r.attributes };

    ghost with_attributes = { λ r a. record r { attributes = a } };

    ghost asked = { asked };

    ghost verdict = { λ r a. first_unmet (clauses r a) };

    ghost IsWeaker = { IsWeaker };

    fn attributes(requirement: &Requirement) -> &AttributeVerifier {
        &requirement.attributes
    }

    fn with_attributes(mut requirement: Requirement, verifier: AttributeVerifier) -> Requirement {
        requirement.attributes = verifier;
        requirement
    }

    fn asked(requirement: &Requirement) -> StaticConfig
        ensures over_the_list { result ≡ asked requirement.now }
        ensures fields { result ≡ asked_fields requirement.now }
    {
        let defaults = StaticConfig::new();
        StaticConfig {
            deadline: requirement.deadline.unwrap_or(defaults.deadline),
            event_id_max_value: requirement
                .event_id_max_value
                .unwrap_or(defaults.event_id_max_value),
            max_listeners: requirement.max_listeners.unwrap_or(defaults.max_listeners),
            max_nodes: requirement.max_nodes.unwrap_or(defaults.max_nodes),
            max_notifiers: requirement.max_notifiers.unwrap_or(defaults.max_notifiers),
            notifier_created_event: requirement
                .notifier_created_event
                .unwrap_or(defaults.notifier_created_event),
            notifier_dead_event: requirement
                .notifier_dead_event
                .unwrap_or(defaults.notifier_dead_event),
            notifier_dropped_event: requirement
                .notifier_dropped_event
                .unwrap_or(defaults.notifier_dropped_event),
        }
    }

    #[tactic(auto, unfolding(crate::specs::Verdict::unmet_clause))]
    fn verdict(requirement: &Requirement, description: &Description) -> Result<(), ClauseError> {
        let has_attributes = requirement.attributes.is_met_by(description.attributes());
        match description.settings() {
            Settings::Event(given) => first_unmet::<Setting>(
                (has_attributes, ClauseError::IncompatibleAttributes),
                requirement,
                given,
            ),
            _ => Err(ClauseError::IncompatibleMessagingPattern),
        }
    }

    fn try_clone(requirement: &Requirement, alloc: Global) -> Result<Requirement, AllocError> {
        Ok(Requirement {
            attributes: requirement.attributes.try_clone(alloc)?,
            deadline: requirement.deadline,
            max_notifiers: requirement.max_notifiers,
            max_listeners: requirement.max_listeners,
            event_id_max_value: requirement.event_id_max_value,
            notifier_created_event: requirement.notifier_created_event,
            notifier_dropped_event: requirement.notifier_dropped_event,
            notifier_dead_event: requirement.notifier_dead_event,
            max_nodes: requirement.max_nodes,
        })
    }

    ghost weaker_is_met = { λ weak strong a. weaker weak strong a.attributes a.settings };

    ghost met_is_of_pattern = { λ r a. met_is_of_pattern r a.attributes a.settings };
}

impl RequiredSetting for Setting {
    ghost use Rattle.iox_describe_verdict.specs.EventClauses.{error_of, named};

    type Requirement = Requirement;

    type ClauseError = ClauseError;

    ghost named = { named };

    ghost error = { error_of };

    fn is_met(self, requirement: &Requirement, given: &StaticConfig) -> bool {
        match self {
            Setting::Deadline => is_optional_number_met(requirement.deadline, given.deadline),
            Setting::EventIdMaxValue => is_number_met(
                requirement.event_id_max_value,
                given.event_id_max_value,
            ),
            Setting::MaxListeners => is_number_met(requirement.max_listeners, given.max_listeners),
            Setting::MaxNodes => is_number_met(requirement.max_nodes, given.max_nodes),
            Setting::MaxNotifiers => is_number_met(requirement.max_notifiers, given.max_notifiers),
            Setting::NotifierCreatedEvent => is_optional_number_met(
                requirement.notifier_created_event,
                given.notifier_created_event,
            ),
            Setting::NotifierDeadEvent => is_optional_number_met(
                requirement.notifier_dead_event,
                given.notifier_dead_event,
            ),
            Setting::NotifierDroppedEvent => is_optional_number_met(
                requirement.notifier_dropped_event,
                given.notifier_dropped_event,
            ),
        }
    }

    fn error(self) -> ClauseError {
        match self {
            Setting::Deadline => ClauseError::IncompatibleDeadline,
            Setting::EventIdMaxValue => ClauseError::DoesNotSupportRequestedMaxEventId,
            Setting::MaxListeners => ClauseError::DoesNotSupportRequestedAmountOfListeners,
            Setting::MaxNodes => ClauseError::DoesNotSupportRequestedAmountOfNodes,
            Setting::MaxNotifiers => ClauseError::DoesNotSupportRequestedAmountOfNotifiers,
            Setting::NotifierCreatedEvent => ClauseError::IncompatibleNotifierCreatedEvent,
            Setting::NotifierDeadEvent => ClauseError::IncompatibleNotifierDeadEvent,
            Setting::NotifierDroppedEvent => ClauseError::IncompatibleNotifierDroppedEvent,
        }
    }
}
