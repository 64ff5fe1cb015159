//! What an opener requires of a request-response service.
ghost use Rattle.std.specs.Prelude.{◌≡◌};

use crate::pattern::{RequestResponse, RequiredPattern};
use crate::requirement::{RequiredSetting, first_unmet, is_number_met, is_switch_met};
use iox_describe_base::message_type::MessageTypeDetails;
use iox_describe_base::verifier::AttributeVerifier;
use iox_describe_settings::description::Description;
use iox_describe_settings::static_config::Settings;
use iox_describe_settings::static_config::request_response::{Setting, StaticConfig};
use std::alloc::{AllocError, Global};
use std::fmt;
use thiserror::Error;

/// Why a request-response service can't be opened: the first clause of the requirement that isn't met. The variants are in the order in
/// which the clauses are tested.
#[derive(Clone, Copy, Debug, PartialEq, Eq, PartialOrd, Ord, Error)]
pub enum ClauseError {
    /// The service has another messaging pattern.
    IncompatibleMessagingPattern,
    /// The required request types aren't compatible with those of the service.
    IncompatibleRequestType,
    /// The required response types aren't compatible with those of the service.
    IncompatibleResponseType,
    /// A required attribute or key is missing.
    IncompatibleAttributes,
    /// The switch `enable_safe_overflow_for_requests` differs.
    IncompatibleOverflowBehaviorForRequests,
    /// The switch `enable_safe_overflow_for_responses` differs.
    IncompatibleOverflowBehaviorForResponses,
    /// The switch `enable_fire_and_forget_requests` differs.
    IncompatibleBehaviorForFireAndForgetRequests,
    /// The service permits fewer loaned requests than required.
    DoesNotSupportRequestedAmountOfClientRequestLoans,
    /// The service permits fewer active requests than required.
    DoesNotSupportRequestedAmountOfActiveRequestsPerClient,
    /// The service's response buffers are smaller than required.
    DoesNotSupportRequestedResponseBufferSize,
    /// The service permits fewer servers than required.
    DoesNotSupportRequestedAmountOfServers,
    /// The service permits fewer clients than required.
    DoesNotSupportRequestedAmountOfClients,
    /// The service permits fewer borrowed responses than required.
    DoesNotSupportRequestedAmountOfBorrowedResponsesPerPendingResponse,
    /// The service permits fewer nodes than required.
    DoesNotSupportRequestedAmountOfNodes,
}

/// Shows the names of the type and of the variant, joined by `::`.
impl fmt::Display for ClauseError {
    fn fmt<W: fmt::Write>(&self, f: &mut fmt::Formatter<W>) -> fmt::Result {
        write!(f, "ClauseError::{self:?}")
    }
}

/// What an opener requires of a request-response service. A setting that is `None` isn't named, and isn't tested.
#[derive(Drop)]
pub struct Requirement {
    /// The request types that must be compatible with those of the service.
    pub request_types: MessageTypeDetails,
    /// The response types that must be compatible with those of the service.
    pub response_types: MessageTypeDetails,
    /// The attributes that the service must have.
    pub attributes: AttributeVerifier,
    /// The switch that the service must have.
    pub enable_safe_overflow_for_requests: Option<bool>,
    /// The switch that the service must have.
    pub enable_safe_overflow_for_responses: Option<bool>,
    /// The switch that the service must have.
    pub enable_fire_and_forget_requests: Option<bool>,
    /// The service's maximum number of loaned requests must be at least this.
    pub max_loaned_requests: Option<u64>,
    /// The service's maximum number of active requests per client must be at least this.
    pub max_active_requests_per_client: Option<u64>,
    /// The service's response buffer size must be at least this.
    pub max_response_buffer_size: Option<u64>,
    /// The service's maximum number of servers must be at least this.
    pub max_servers: Option<u64>,
    /// The service's maximum number of clients must be at least this.
    pub max_clients: Option<u64>,
    /// The service's maximum number of borrowed responses must be at least this.
    pub max_borrowed_responses_per_pending_response: Option<u64>,
    /// The service's maximum number of nodes must be at least this.
    pub max_nodes: Option<u64>,
}

impl Requirement {
    ghost use Rattle.iox_describe_verdict.specs.RequestResponseClauses.{unnamed};

    /// A requirement that names no setting.
    pub fn new(
        request_types: MessageTypeDetails,
        response_types: MessageTypeDetails,
        attributes: AttributeVerifier,
    ) -> Self
        ensures { result ≡ unnamed request_types response_types attributes }
    {
        Requirement {
            request_types,
            response_types,
            attributes,
            enable_safe_overflow_for_requests: None,
            enable_safe_overflow_for_responses: None,
            enable_fire_and_forget_requests: None,
            max_loaned_requests: None,
            max_active_requests_per_client: None,
            max_response_buffer_size: None,
            max_servers: None,
            max_clients: None,
            max_borrowed_responses_per_pending_response: None,
            max_nodes: None,
        }
    }
}

impl RequiredPattern for RequestResponse {
    ghost use Rattle.iox_describe_verdict.specs.Verdict.{first_unmet};
    ghost use Rattle.iox_describe_verdict.specs.RequestResponseClauses.{asked, asked_fields, clauses, IsWeaker};
    ghost use Rattle.iox_describe_verdict.specs.RequestResponseLaws.{met_is_of_pattern, weaker};

    type Requirement = Requirement;

    type ClauseError = ClauseError;

    ghost attributes = { λ r. r.attributes };

    ghost with_attributes = { λ r a. record r { attributes = a } };

    ghost asked = { asked };

    ghost verdict = { λ r a. first_unmet (clauses r a) };

    ghost IsWeaker = { IsWeaker };

    fn attributes(requirement: &Requirement) -> &AttributeVerifier {
        &requirement.attributes
    }

    fn with_attributes(mut requirement: Requirement, verifier: AttributeVerifier) -> Requirement {
        requirement.attributes = verifier;
        requirement
    }

    fn asked(requirement: &Requirement) -> StaticConfig
        ensures over_the_list { result ≡ asked requirement.now }
        ensures fields { result ≡ asked_fields requirement.now }
    {
        let defaults = StaticConfig::new(requirement.request_types, requirement.response_types);
        StaticConfig {
            enable_fire_and_forget_requests: requirement
                .enable_fire_and_forget_requests
                .unwrap_or(defaults.enable_fire_and_forget_requests),
            enable_safe_overflow_for_requests: requirement
                .enable_safe_overflow_for_requests
                .unwrap_or(defaults.enable_safe_overflow_for_requests),
            enable_safe_overflow_for_responses: requirement
                .enable_safe_overflow_for_responses
                .unwrap_or(defaults.enable_safe_overflow_for_responses),
            max_active_requests_per_client: requirement
                .max_active_requests_per_client
                .unwrap_or(defaults.max_active_requests_per_client),
            max_borrowed_responses_per_pending_response: requirement
                .max_borrowed_responses_per_pending_response
                .unwrap_or(defaults.max_borrowed_responses_per_pending_response),
            max_clients: requirement.max_clients.unwrap_or(defaults.max_clients),
            max_loaned_requests: requirement
                .max_loaned_requests
                .unwrap_or(defaults.max_loaned_requests),
            max_nodes: requirement.max_nodes.unwrap_or(defaults.max_nodes),
            max_response_buffer_size: requirement
                .max_response_buffer_size
                .unwrap_or(defaults.max_response_buffer_size),
            max_servers: requirement.max_servers.unwrap_or(defaults.max_servers),
            request_types: requirement.request_types,
            response_types: requirement.response_types,
        }
    }

    #[tactic(auto, unfolding(crate::specs::Verdict::unmet_clause))]
    fn verdict(requirement: &Requirement, description: &Description) -> Result<(), ClauseError> {
        let has_attributes = requirement.attributes.is_met_by(description.attributes());
        match description.settings() {
            Settings::RequestResponse(given) => first_unmet::<Setting>(
                (has_attributes, ClauseError::IncompatibleAttributes),
                requirement,
                given,
            ),
            _ => Err(ClauseError::IncompatibleMessagingPattern),
        }
    }

    fn try_clone(requirement: &Requirement, alloc: Global) -> Result<Requirement, AllocError> {
        Ok(Requirement {
            request_types: requirement.request_types,
            response_types: requirement.response_types,
            attributes: requirement.attributes.try_clone(alloc)?,
            enable_safe_overflow_for_requests: requirement.enable_safe_overflow_for_requests,
            enable_safe_overflow_for_responses: requirement.enable_safe_overflow_for_responses,
            enable_fire_and_forget_requests: requirement.enable_fire_and_forget_requests,
            max_loaned_requests: requirement.max_loaned_requests,
            max_active_requests_per_client: requirement.max_active_requests_per_client,
            max_response_buffer_size: requirement.max_response_buffer_size,
            max_servers: requirement.max_servers,
            max_clients: requirement.max_clients,
            max_borrowed_responses_per_pending_response: requirement.max_borrowed_responses_per_pending_response,
            max_nodes: requirement.max_nodes,
        })
    }

    ghost weaker_is_met = { λ weak strong a. weaker weak strong a.attributes a.settings };

    ghost met_is_of_pattern = { λ r a. met_is_of_pattern r a.attributes a.settings };
}

impl RequiredSetting for Setting {
    ghost use Rattle.iox_describe_verdict.specs.RequestResponseClauses.{error_of, named};

    type Requirement = Requirement;

    type ClauseError = ClauseError;

    ghost named = { named };

    ghost error = { error_of };

    fn is_met(self, requirement: &Requirement, given: &StaticConfig) -> bool {
        match self {
            Setting::EnableFireAndForgetRequests => is_switch_met(
                requirement.enable_fire_and_forget_requests,
                given.enable_fire_and_forget_requests,
            ),
            Setting::EnableSafeOverflowForRequests => is_switch_met(
                requirement.enable_safe_overflow_for_requests,
                given.enable_safe_overflow_for_requests,
            ),
            Setting::EnableSafeOverflowForResponses => is_switch_met(
                requirement.enable_safe_overflow_for_responses,
                given.enable_safe_overflow_for_responses,
            ),
            Setting::MaxActiveRequestsPerClient => is_number_met(
                requirement.max_active_requests_per_client,
                given.max_active_requests_per_client,
            ),
            Setting::MaxBorrowedResponsesPerPendingResponse => is_number_met(
                requirement.max_borrowed_responses_per_pending_response,
                given.max_borrowed_responses_per_pending_response,
            ),
            Setting::MaxClients => is_number_met(requirement.max_clients, given.max_clients),
            Setting::MaxLoanedRequests => is_number_met(
                requirement.max_loaned_requests,
                given.max_loaned_requests,
            ),
            Setting::MaxNodes => is_number_met(requirement.max_nodes, given.max_nodes),
            Setting::MaxResponseBufferSize => is_number_met(
                requirement.max_response_buffer_size,
                given.max_response_buffer_size,
            ),
            Setting::MaxServers => is_number_met(requirement.max_servers, given.max_servers),
            Setting::RequestTypes => requirement
                .request_types
                .is_compatible_to(&given.request_types),
            Setting::ResponseTypes => requirement
                .response_types
                .is_compatible_to(&given.response_types),
        }
    }

    fn error(self) -> ClauseError {
        match self {
            Setting::EnableFireAndForgetRequests =>
                ClauseError::IncompatibleBehaviorForFireAndForgetRequests,
            Setting::EnableSafeOverflowForRequests =>
                ClauseError::IncompatibleOverflowBehaviorForRequests,
            Setting::EnableSafeOverflowForResponses =>
                ClauseError::IncompatibleOverflowBehaviorForResponses,
            Setting::MaxActiveRequestsPerClient =>
                ClauseError::DoesNotSupportRequestedAmountOfActiveRequestsPerClient,
            Setting::MaxBorrowedResponsesPerPendingResponse =>
                ClauseError::DoesNotSupportRequestedAmountOfBorrowedResponsesPerPendingResponse,
            Setting::MaxClients => ClauseError::DoesNotSupportRequestedAmountOfClients,
            Setting::MaxLoanedRequests =>
                ClauseError::DoesNotSupportRequestedAmountOfClientRequestLoans,
            Setting::MaxNodes => ClauseError::DoesNotSupportRequestedAmountOfNodes,
            Setting::MaxResponseBufferSize =>
                ClauseError::DoesNotSupportRequestedResponseBufferSize,
            Setting::MaxServers => ClauseError::DoesNotSupportRequestedAmountOfServers,
            Setting::RequestTypes => ClauseError::IncompatibleRequestType,
            Setting::ResponseTypes => ClauseError::IncompatibleResponseType,
        }
    }
}
