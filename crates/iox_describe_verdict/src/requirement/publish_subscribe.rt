//! What an opener requires of a publish-subscribe service.
ghost use Rattle.std.specs.Prelude.{◌≡◌};

use crate::pattern::{PublishSubscribe, RequiredPattern};
use crate::requirement::{RequiredSetting, first_unmet, is_number_met, is_switch_met};
use iox_describe_base::message_type::MessageTypeDetails;
use iox_describe_base::verifier::AttributeVerifier;
use iox_describe_settings::description::Description;
use iox_describe_settings::static_config::Settings;
use iox_describe_settings::static_config::publish_subscribe::{Setting, StaticConfig};
use std::alloc::{AllocError, Global};
use std::fmt;
use thiserror::Error;

/// Why a publish-subscribe service can't be opened: the first clause of the requirement that isn't met. The variants are in the order in
/// which the clauses are tested.
#[derive(Clone, Copy, Debug, PartialEq, Eq, PartialOrd, Ord, Error)]
pub enum ClauseError {
    /// The service has another messaging pattern.
    IncompatibleMessagingPattern,
    /// The required types aren't compatible with those of the service.
    IncompatibleTypes,
    /// A required attribute or key is missing.
    IncompatibleAttributes,
    /// The switch `enable_safe_overflow` differs.
    IncompatibleOverflowBehavior,
    /// The switch `sequence_numbers` differs.
    IncompatibleSequenceNumbers,
    /// The service permits fewer publishers than required.
    DoesNotSupportRequestedAmountOfPublishers,
    /// The service permits fewer subscribers than required.
    DoesNotSupportRequestedAmountOfSubscribers,
    /// The service's buffers are smaller than required.
    DoesNotSupportRequestedMinBufferSize,
    /// The service's history is shorter than required.
    DoesNotSupportRequestedMinHistorySize,
    /// The service permits fewer borrowed samples than required.
    DoesNotSupportRequestedMinSubscriberBorrowedSamples,
    /// The service permits fewer nodes than required.
    DoesNotSupportRequestedAmountOfNodes,
}

/// Shows the names of the type and of the variant, joined by `::`.
impl fmt::Display for ClauseError {
    fn fmt<W: fmt::Write>(&self, f: &mut fmt::Formatter<W>) -> fmt::Result {
        write!(f, "ClauseError::{self:?}")
    }
}

/// What an opener requires of a publish-subscribe service. A setting that is `None` isn't named, and isn't tested.
#[derive(Drop)]
pub struct Requirement {
    /// The types that must be compatible with those of the service.
    pub types: MessageTypeDetails,
    /// The attributes that the service must have.
    pub attributes: AttributeVerifier,
    /// The switch that the service must have.
    pub enable_safe_overflow: Option<bool>,
    /// The switch that the service must have.
    pub sequence_numbers: Option<bool>,
    /// The service's maximum number of publishers must be at least this.
    pub max_publishers: Option<u64>,
    /// The service's maximum number of subscribers must be at least this.
    pub max_subscribers: Option<u64>,
    /// The service's buffer size must be at least this.
    pub subscriber_max_buffer_size: Option<u64>,
    /// The service's history size must be at least this.
    pub history_size: Option<u64>,
    /// The service's maximum number of borrowed samples must be at least this.
    pub subscriber_max_borrowed_samples: Option<u64>,
    /// The service's maximum number of nodes must be at least this.
    pub max_nodes: Option<u64>,
}

impl Requirement {
    ghost use Rattle.iox_describe_verdict.specs.PublishSubscribeClauses.{unnamed};

    /// A requirement that names no setting.
    pub fn new(types: MessageTypeDetails, attributes: AttributeVerifier) -> Self
        ensures { result ≡ unnamed types attributes }
    {
        Requirement {
            types,
            attributes,
            enable_safe_overflow: None,
            sequence_numbers: None,
            max_publishers: None,
            max_subscribers: None,
            subscriber_max_buffer_size: None,
            history_size: None,
            subscriber_max_borrowed_samples: None,
            max_nodes: None,
        }
    }
}

impl RequiredPattern for PublishSubscribe {
    ghost use Rattle.iox_describe_verdict.specs.Verdict.{first_unmet};
    ghost use Rattle.iox_describe_verdict.specs.PublishSubscribeClauses.{asked, asked_fields, clauses, IsWeaker};
    ghost use Rattle.iox_describe_verdict.specs.PublishSubscribeLaws.{met_is_of_pattern, weaker};

    type Requirement = Requirement;

    type ClauseError = ClauseError;

    ghost attributes = { λ r. r.attributes };

    ghost with_attributes = { λ r a. record r { attributes = a } };

    ghost asked = { asked };

    ghost verdict = { λ r a. first_unmet (clauses r a) };

    ghost IsWeaker = { IsWeaker };

    fn attributes(requirement: &Requirement) -> &AttributeVerifier {
        &requirement.attributes
    }

    fn with_attributes(mut requirement: Requirement, verifier: AttributeVerifier) -> Requirement {
        requirement.attributes = verifier;
        requirement
    }

    fn asked(requirement: &Requirement) -> StaticConfig
        ensures over_the_list { result ≡ asked requirement.now }
        ensures fields { result ≡ asked_fields requirement.now }
    {
        let defaults = StaticConfig::new(requirement.types);
        StaticConfig {
            enable_safe_overflow: requirement
                .enable_safe_overflow
                .unwrap_or(defaults.enable_safe_overflow),
            history_size: requirement.history_size.unwrap_or(defaults.history_size),
            max_nodes: requirement.max_nodes.unwrap_or(defaults.max_nodes),
            max_publishers: requirement
                .max_publishers
                .unwrap_or(defaults.max_publishers),
            max_subscribers: requirement
                .max_subscribers
                .unwrap_or(defaults.max_subscribers),
            sequence_numbers: requirement
                .sequence_numbers
                .unwrap_or(defaults.sequence_numbers),
            subscriber_max_borrowed_samples: requirement
                .subscriber_max_borrowed_samples
                .unwrap_or(defaults.subscriber_max_borrowed_samples),
            subscriber_max_buffer_size: requirement
                .subscriber_max_buffer_size
                .unwrap_or(defaults.subscriber_max_buffer_size),
            types: requirement.types,
        }
    }

    #[tactic(auto, unfolding(crate::specs::Verdict::unmet_clause))]
    fn verdict(requirement: &Requirement, description: &Description) -> Result<(), ClauseError> {
        let has_attributes = requirement.attributes.is_met_by(description.attributes());
        match description.settings() {
            Settings::PublishSubscribe(given) => first_unmet::<Setting>(
                (has_attributes, ClauseError::IncompatibleAttributes),
                requirement,
                given,
            ),
            _ => Err(ClauseError::IncompatibleMessagingPattern),
        }
    }

    fn try_clone(requirement: &Requirement, alloc: Global) -> Result<Requirement, AllocError> {
        Ok(Requirement {
            types: requirement.types,
            attributes: requirement.attributes.try_clone(alloc)?,
            enable_safe_overflow: requirement.enable_safe_overflow,
            sequence_numbers: requirement.sequence_numbers,
            max_publishers: requirement.max_publishers,
            max_subscribers: requirement.max_subscribers,
            subscriber_max_buffer_size: requirement.subscriber_max_buffer_size,
            history_size: requirement.history_size,
            subscriber_max_borrowed_samples: requirement.subscriber_max_borrowed_samples,
            max_nodes: requirement.max_nodes,
        })
    }

    ghost weaker_is_met = { λ weak strong a. weaker weak strong a.attributes a.settings };

    ghost met_is_of_pattern = { λ r a. met_is_of_pattern r a.attributes a.settings };
}

impl RequiredSetting for Setting {
    ghost use Rattle.iox_describe_verdict.specs.PublishSubscribeClauses.{error_of, named};

    type Requirement = Requirement;

    type ClauseError = ClauseError;

    ghost named = { named };

    ghost error = { error_of };

    fn is_met(self, requirement: &Requirement, given: &StaticConfig) -> bool {
        match self {
            Setting::EnableSafeOverflow => is_switch_met(
                requirement.enable_safe_overflow,
                given.enable_safe_overflow,
            ),
            Setting::HistorySize => is_number_met(requirement.history_size, given.history_size),
            Setting::MaxNodes => is_number_met(requirement.max_nodes, given.max_nodes),
            Setting::MaxPublishers => is_number_met(
                requirement.max_publishers,
                given.max_publishers,
            ),
            Setting::MaxSubscribers => is_number_met(
                requirement.max_subscribers,
                given.max_subscribers,
            ),
            Setting::SequenceNumbers => is_switch_met(
                requirement.sequence_numbers,
                given.sequence_numbers,
            ),
            Setting::SubscriberMaxBorrowedSamples => is_number_met(
                requirement.subscriber_max_borrowed_samples,
                given.subscriber_max_borrowed_samples,
            ),
            Setting::SubscriberMaxBufferSize => is_number_met(
                requirement.subscriber_max_buffer_size,
                given.subscriber_max_buffer_size,
            ),
            Setting::Types => requirement.types.is_compatible_to(&given.types),
        }
    }

    fn error(self) -> ClauseError {
        match self {
            Setting::EnableSafeOverflow => ClauseError::IncompatibleOverflowBehavior,
            Setting::HistorySize => ClauseError::DoesNotSupportRequestedMinHistorySize,
            Setting::MaxNodes => ClauseError::DoesNotSupportRequestedAmountOfNodes,
            Setting::MaxPublishers => ClauseError::DoesNotSupportRequestedAmountOfPublishers,
            Setting::MaxSubscribers => ClauseError::DoesNotSupportRequestedAmountOfSubscribers,
            Setting::SequenceNumbers => ClauseError::IncompatibleSequenceNumbers,
            Setting::SubscriberMaxBorrowedSamples =>
                ClauseError::DoesNotSupportRequestedMinSubscriberBorrowedSamples,
            Setting::SubscriberMaxBufferSize => ClauseError::DoesNotSupportRequestedMinBufferSize,
            Setting::Types => ClauseError::IncompatibleTypes,
        }
    }
}
