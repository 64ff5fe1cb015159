//! The settings of a request-response service.
ghost use Rattle.std.specs.Prelude.{◌≡◌, ◌↔◌, IsTrue};

use crate::setting::{PatternSetting, Rule, SettingValue, adjusted, are_allowed, with_defaults};
use iox_describe_base::limits::NUMBER_OF_PORTS_END;
use iox_describe_base::message_type::MessageTypeDetails;

/// The settings of a request-response service.
///
/// Ported from `iceoryx2::service::static_config::request_response::StaticConfig`.
#[derive(Clone, Copy, Debug, PartialEq, Eq)]
pub struct StaticConfig {
    /// Whether a client may send requests and drop their responses.
    pub enable_fire_and_forget_requests: bool,
    /// Whether a send drops the oldest request of a full buffer.
    pub enable_safe_overflow_for_requests: bool,
    /// Whether a send drops the oldest response of a full buffer.
    pub enable_safe_overflow_for_responses: bool,
    /// The maximum number of open requests of one client.
    pub max_active_requests_per_client: u64,
    /// The maximum number of responses to one request that a client may hold.
    pub max_borrowed_responses_per_pending_response: u64,
    /// The maximum number of clients.
    pub max_clients: u64,
    /// The maximum number of loaned requests of a client.
    pub max_loaned_requests: u64,
    /// The maximum number of nodes.
    pub max_nodes: u64,
    /// The maximum number of waiting responses to one request.
    pub max_response_buffer_size: u64,
    /// The maximum number of servers.
    pub max_servers: u64,
    /// The types of the requests.
    pub request_types: MessageTypeDetails,
    /// The types of the responses.
    pub response_types: MessageTypeDetails,
}

impl StaticConfig {
    ghost use Rattle.iox_describe_settings.specs.RequestResponseSettings.{adjusted, defaults, unset, IsWithinLimits};

    /// The default settings, for these types.
    pub fn new(request_types: MessageTypeDetails, response_types: MessageTypeDetails) -> Self
        ensures { result ≡ defaults request_types response_types }
    {
        with_defaults::<Setting>(Self::unset(request_types, response_types))
    }

    /// Settings that are all 0 or false, except for the types, before the defaults are filled in.
    fn unset(request_types: MessageTypeDetails, response_types: MessageTypeDetails) -> Self
        ensures { result ≡ unset request_types response_types }
    {
        StaticConfig {
            enable_fire_and_forget_requests: false,
            enable_safe_overflow_for_requests: false,
            enable_safe_overflow_for_responses: false,
            max_active_requests_per_client: 0,
            max_borrowed_responses_per_pending_response: 0,
            max_clients: 0,
            max_loaned_requests: 0,
            max_nodes: 0,
            max_response_buffer_size: 0,
            max_servers: 0,
            request_types,
            response_types,
        }
    }

    /// The settings for `create`: a 0 that isn't possible becomes 1.
    pub fn adjusted(self) -> Self
        ensures { result ≡ adjusted self }
    {
        adjusted::<Setting>(self)
    }

    /// Whether the numbers are within the limits of a description.
    pub fn is_within_limits(&self) -> bool
        ensures { IsTrue result ↔ IsWithinLimits self.now }
    {
        are_allowed::<Setting>(self)
    }
}

/// A setting of a request-response service.
#[derive(Clone, Copy)]
pub enum Setting {
    /// `enable_fire_and_forget_requests`
    EnableFireAndForgetRequests,
    /// `enable_safe_overflow_for_requests`
    EnableSafeOverflowForRequests,
    /// `enable_safe_overflow_for_responses`
    EnableSafeOverflowForResponses,
    /// `max_active_requests_per_client`
    MaxActiveRequestsPerClient,
    /// `max_borrowed_responses_per_pending_response`
    MaxBorrowedResponsesPerPendingResponse,
    /// `max_clients`
    MaxClients,
    /// `max_loaned_requests`
    MaxLoanedRequests,
    /// `max_nodes`
    MaxNodes,
    /// `max_response_buffer_size`
    MaxResponseBufferSize,
    /// `max_servers`
    MaxServers,
    /// `request_types`
    RequestTypes,
    /// `response_types`
    ResponseTypes,
}

impl PatternSetting for Setting {
    ghost use Rattle.std.specs.Prelude.{refl};
    ghost use Rattle.iox_describe_settings.specs.RequestResponseSettings.{all, changed, key, rule, value};
    ghost use Rattle.iox_describe_settings.specs.declared.static_config.request_response.Setting.TheVariants as setting;

    type Config = StaticConfig;

    ghost all = { all };

    ghost key = { key };

    ghost rule = { rule };

    ghost value = { value };

    ghost changed = { changed };

    fn all() -> &'static [Self] {
        &[
            Setting::EnableFireAndForgetRequests,
            Setting::EnableSafeOverflowForRequests,
            Setting::EnableSafeOverflowForResponses,
            Setting::MaxActiveRequestsPerClient,
            Setting::MaxBorrowedResponsesPerPendingResponse,
            Setting::MaxClients,
            Setting::MaxLoanedRequests,
            Setting::MaxNodes,
            Setting::MaxResponseBufferSize,
            Setting::MaxServers,
            Setting::RequestTypes,
            Setting::ResponseTypes,
        ]
    }

    fn key(self) -> &'static str {
        match self {
            Setting::EnableFireAndForgetRequests => "enable_fire_and_forget_requests",
            Setting::EnableSafeOverflowForRequests => "enable_safe_overflow_for_requests",
            Setting::EnableSafeOverflowForResponses => "enable_safe_overflow_for_responses",
            Setting::MaxActiveRequestsPerClient => "max_active_requests_per_client",
            Setting::MaxBorrowedResponsesPerPendingResponse =>
                "max_borrowed_responses_per_pending_response",
            Setting::MaxClients => "max_clients",
            Setting::MaxLoanedRequests => "max_loaned_requests",
            Setting::MaxNodes => "max_nodes",
            Setting::MaxResponseBufferSize => "max_response_buffer_size",
            Setting::MaxServers => "max_servers",
            Setting::RequestTypes => "request_types",
            Setting::ResponseTypes => "response_types",
        }
    }

    fn rule(self) -> Rule {
        match self {
            Setting::EnableFireAndForgetRequests => Rule::Switch(true),
            Setting::EnableSafeOverflowForRequests => Rule::Switch(true),
            Setting::EnableSafeOverflowForResponses => Rule::Switch(true),
            Setting::MaxActiveRequestsPerClient => Rule::number(4, 1, None),
            Setting::MaxBorrowedResponsesPerPendingResponse => Rule::number(2, 1, None),
            Setting::MaxClients => Rule::number(8, 1, None),
            Setting::MaxLoanedRequests => Rule::number(2, 1, None),
            Setting::MaxNodes => Rule::number(20, 1, Some(NUMBER_OF_PORTS_END)),
            Setting::MaxResponseBufferSize => Rule::number(2, 1, None),
            Setting::MaxServers => Rule::number(2, 1, None),
            Setting::RequestTypes => Rule::Types,
            Setting::ResponseTypes => Rule::Types,
        }
    }

    fn value(self, config: &StaticConfig) -> SettingValue {
        match self {
            Setting::EnableFireAndForgetRequests => SettingValue::Switch(
                config.enable_fire_and_forget_requests,
            ),
            Setting::EnableSafeOverflowForRequests => SettingValue::Switch(
                config.enable_safe_overflow_for_requests,
            ),
            Setting::EnableSafeOverflowForResponses => SettingValue::Switch(
                config.enable_safe_overflow_for_responses,
            ),
            Setting::MaxActiveRequestsPerClient => SettingValue::Number(
                config.max_active_requests_per_client,
            ),
            Setting::MaxBorrowedResponsesPerPendingResponse => SettingValue::Number(
                config.max_borrowed_responses_per_pending_response,
            ),
            Setting::MaxClients => SettingValue::Number(config.max_clients),
            Setting::MaxLoanedRequests => SettingValue::Number(config.max_loaned_requests),
            Setting::MaxNodes => SettingValue::Number(config.max_nodes),
            Setting::MaxResponseBufferSize => SettingValue::Number(config.max_response_buffer_size),
            Setting::MaxServers => SettingValue::Number(config.max_servers),
            Setting::RequestTypes => SettingValue::Types(config.request_types),
            Setting::ResponseTypes => SettingValue::Types(config.response_types),
        }
    }

    fn set(self, config: &mut StaticConfig, to: SettingValue) {
        match (self, to) {
            (Setting::EnableFireAndForgetRequests, SettingValue::Switch(switch)) =>
                config.enable_fire_and_forget_requests = switch,
            (Setting::EnableSafeOverflowForRequests, SettingValue::Switch(switch)) =>
                config.enable_safe_overflow_for_requests = switch,
            (Setting::EnableSafeOverflowForResponses, SettingValue::Switch(switch)) =>
                config.enable_safe_overflow_for_responses = switch,
            (Setting::MaxActiveRequestsPerClient, SettingValue::Number(number)) =>
                config.max_active_requests_per_client = number,
            (Setting::MaxBorrowedResponsesPerPendingResponse, SettingValue::Number(number)) =>
                config.max_borrowed_responses_per_pending_response = number,
            (Setting::MaxClients, SettingValue::Number(number)) => config.max_clients = number,
            (Setting::MaxLoanedRequests, SettingValue::Number(number)) =>
                config.max_loaned_requests = number,
            (Setting::MaxNodes, SettingValue::Number(number)) => config.max_nodes = number,
            (Setting::MaxResponseBufferSize, SettingValue::Number(number)) =>
                config.max_response_buffer_size = number,
            (Setting::MaxServers, SettingValue::Number(number)) => config.max_servers = number,
            (Setting::RequestTypes, SettingValue::Types(types)) => config.request_types = types,
            (Setting::ResponseTypes, SettingValue::Types(types)) => config.response_types = types,
            _ => {}
        }
    }

    ghost in_order = { refl };

    ghost of_kind = { elim
        [ setting.EnableFireAndForgetRequests ↦ λ c. tt | setting.EnableSafeOverflowForRequests ↦ λ c. tt | setting.EnableSafeOverflowForResponses ↦ λ c. tt | setting.MaxActiveRequestsPerClient ↦ λ c. tt | setting.MaxBorrowedResponsesPerPendingResponse ↦ λ c. tt | setting.MaxClients ↦ λ c. tt | setting.MaxLoanedRequests ↦ λ c. tt | setting.MaxNodes ↦ λ c. tt | setting.MaxResponseBufferSize ↦ λ c. tt | setting.MaxServers ↦ λ c. tt | setting.RequestTypes ↦ λ c. tt | setting.ResponseTypes ↦ λ c. tt ] };

    ghost is_whole = { λ target config. refl };
}
