//! Setters of a builder of request-response services. Each of them names one setting and changes nothing else.
ghost use Rattle.std.specs.Prelude.{◌≡◌, Some};
ghost use Rattle.iox_negotiate_base.specs.DescribeBase.Detail.{detail};
ghost use Rattle.iox_negotiate_base.specs.DescribeBase.declared.type_detail.TypeVariant.TheVariants.{FixedSize};
ghost use Rattle.iox_negotiate.specs.Types.{aligned};

use crate::builder::ServiceBuilder;
use crate::payload::aligned;
use iox_describe::pattern::RequestResponse;
use iox_describe::{TypeDetail, TypeVariant, ZeroCopySend};

impl ServiceBuilder<RequestResponse> {
    /// Asks for this type of user header in requests.
    /// Example: `builder.request_user_header::<u64>()`
    pub fn request_user_header<U: ZeroCopySend>(mut self) -> Self
        ensures { result ≡ record self {
          requirement = record self.requirement
              { request_types = record self.requirement.request_types { user_header = detail FixedSize U.name U.size U.alignment } };
        } }
    {
        self.requirement.request_types.user_header = U::type_detail(TypeVariant::FixedSize);
        self
    }

    /// Asks for this type of user header in responses.
    /// Example: `builder.response_user_header::<u64>()`
    pub fn response_user_header<U: ZeroCopySend>(mut self) -> Self
        ensures { result ≡ record self {
          requirement = record self.requirement
              { response_types = record self.requirement.response_types { user_header = detail FixedSize U.name U.size U.alignment } };
        } }
    {
        self.requirement.response_types.user_header = U::type_detail(TypeVariant::FixedSize);
        self
    }

    /// Asks for this alignment of the payload of requests, in bytes, or for that of its type if that is larger.
    /// Example: `builder.request_payload_alignment(16)`
    pub fn request_payload_alignment(mut self, alignment: u64) -> Self
        ensures { result ≡ record self {
          requirement = record self.requirement {
            request_types = record self.requirement.request_types
                { payload = aligned self.requirement.request_types.payload alignment };
          };
        } }
    {
        self.requirement.request_types.payload = aligned(
            &self.requirement.request_types.payload,
            alignment,
        );
        self
    }

    /// Asks for this alignment of the payload of responses, in bytes, or for that of its type if that is larger.
    /// Example: `builder.response_payload_alignment(16)`
    pub fn response_payload_alignment(mut self, alignment: u64) -> Self
        ensures { result ≡ record self {
          requirement = record self.requirement {
            response_types = record self.requirement.response_types
                { payload = aligned self.requirement.response_types.payload alignment };
          };
        } }
    {
        self.requirement.response_types.payload = aligned(
            &self.requirement.response_types.payload,
            alignment,
        );
        self
    }

    /// Asks for a request payload with this type detail.
    /// Example: `builder.internal_set_request_payload_type_details(detail)`
    pub fn internal_set_request_payload_type_details(mut self, value: TypeDetail) -> Self
        ensures { result ≡ record self
            { requirement = record self.requirement { request_types = record self.requirement.request_types { payload = value } } } }
    {
        self.requirement.request_types.payload = value;
        self
    }

    /// Asks for a response payload with this type detail.
    /// Example: `builder.internal_set_response_payload_type_details(detail)`
    pub fn internal_set_response_payload_type_details(mut self, value: TypeDetail) -> Self
        ensures { result ≡ record self
            { requirement = record self.requirement { response_types = record self.requirement.response_types { payload = value } } } }
    {
        self.requirement.response_types.payload = value;
        self
    }

    /// Asks for a user header of requests with this type detail.
    /// Example: `builder.internal_set_request_header_type_details(detail)`
    pub fn internal_set_request_header_type_details(mut self, value: TypeDetail) -> Self
        ensures { result ≡ record self
            { requirement = record self.requirement { request_types = record self.requirement.request_types { user_header = value } } } }
    {
        self.requirement.request_types.user_header = value;
        self
    }

    /// Asks for a user header of responses with this type detail.
    /// Example: `builder.internal_set_response_header_type_details(detail)`
    pub fn internal_set_response_header_type_details(mut self, value: TypeDetail) -> Self
        ensures { result ≡ record self
            { requirement = record self.requirement { response_types = record self.requirement.response_types { user_header = value } } } }
    {
        self.requirement.response_types.user_header = value;
        self
    }

    /// Sets whether a send drops the oldest request of a full buffer.
    /// Example: `builder.enable_safe_overflow_for_requests(false)`
    pub fn enable_safe_overflow_for_requests(mut self, value: bool) -> Self
        ensures { result ≡ record self { requirement = record self.requirement { enable_safe_overflow_for_requests = Some value } } }
    {
        self.requirement.enable_safe_overflow_for_requests = Some(value);
        self
    }

    /// Sets whether a send drops the oldest response of a full buffer.
    /// Example: `builder.enable_safe_overflow_for_responses(false)`
    pub fn enable_safe_overflow_for_responses(mut self, value: bool) -> Self
        ensures { result ≡ record self { requirement = record self.requirement { enable_safe_overflow_for_responses = Some value } } }
    {
        self.requirement.enable_safe_overflow_for_responses = Some(value);
        self
    }

    /// Sets whether a client may send requests and drop their responses.
    /// Example: `builder.enable_fire_and_forget_requests(false)`
    pub fn enable_fire_and_forget_requests(mut self, value: bool) -> Self
        ensures { result ≡ record self { requirement = record self.requirement { enable_fire_and_forget_requests = Some value } } }
    {
        self.requirement.enable_fire_and_forget_requests = Some(value);
        self
    }

    /// Sets the maximum number of open requests of one client: an existing service must have at least this, and a created one gets exactly
    /// this.
    /// Example: `builder.max_active_requests_per_client(4)`
    pub fn max_active_requests_per_client(mut self, value: u64) -> Self
        ensures { result ≡ record self { requirement = record self.requirement { max_active_requests_per_client = Some value } } }
    {
        self.requirement.max_active_requests_per_client = Some(value);
        self
    }

    /// Sets the maximum number of loaned requests of a client: an existing service must have at least this, and a created one gets exactly
    /// this.
    /// Example: `builder.max_loaned_requests(2)`
    pub fn max_loaned_requests(mut self, value: u64) -> Self
        ensures { result ≡ record self { requirement = record self.requirement { max_loaned_requests = Some value } } }
    {
        self.requirement.max_loaned_requests = Some(value);
        self
    }

    /// Sets the maximum number of waiting responses to one request: an existing service must have at least this, and a created one gets
    /// exactly this.
    /// Example: `builder.max_response_buffer_size(2)`
    pub fn max_response_buffer_size(mut self, value: u64) -> Self
        ensures { result ≡ record self { requirement = record self.requirement { max_response_buffer_size = Some value } } }
    {
        self.requirement.max_response_buffer_size = Some(value);
        self
    }

    /// Sets the maximum number of servers: an existing service must have at least this, and a created one gets exactly this.
    /// Example: `builder.max_servers(2)`
    pub fn max_servers(mut self, value: u64) -> Self
        ensures { result ≡ record self { requirement = record self.requirement { max_servers = Some value } } }
    {
        self.requirement.max_servers = Some(value);
        self
    }

    /// Sets the maximum number of clients: an existing service must have at least this, and a created one gets exactly this.
    /// Example: `builder.max_clients(8)`
    pub fn max_clients(mut self, value: u64) -> Self
        ensures { result ≡ record self { requirement = record self.requirement { max_clients = Some value } } }
    {
        self.requirement.max_clients = Some(value);
        self
    }

    /// Sets the maximum number of responses to one request that a client may hold: an existing service must have at least this, and a
    /// created one gets exactly this.
    /// Example: `builder.max_borrowed_responses_per_pending_response(2)`
    pub fn max_borrowed_responses_per_pending_response(mut self, value: u64) -> Self
        ensures { result ≡ record self
            { requirement = record self.requirement { max_borrowed_responses_per_pending_response = Some value } } }
    {
        self.requirement.max_borrowed_responses_per_pending_response = Some(value);
        self
    }

    /// Sets the maximum number of nodes: an existing service must have at least this, and a created one gets exactly this.
    /// Example: `builder.max_nodes(4)`
    pub fn max_nodes(mut self, value: u64) -> Self
        ensures { result ≡ record self { requirement = record self.requirement { max_nodes = Some value } } }
    {
        self.requirement.max_nodes = Some(value);
        self
    }
}
