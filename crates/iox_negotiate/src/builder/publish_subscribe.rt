//! Setters of a builder of publish-subscribe services. Each of them names one setting and changes nothing else.
ghost use Rattle.std.specs.Prelude.{◌≡◌, Some};
ghost use Rattle.iox_negotiate_base.specs.DescribeBase.Detail.{detail};
ghost use Rattle.iox_negotiate_base.specs.DescribeBase.declared.type_detail.TypeVariant.TheVariants.{FixedSize};
ghost use Rattle.iox_negotiate.specs.Types.{aligned};

use crate::builder::ServiceBuilder;
use crate::payload::aligned;
use iox_describe::pattern::PublishSubscribe;
use iox_describe::{TypeDetail, TypeVariant, ZeroCopySend};

impl ServiceBuilder<PublishSubscribe> {
    /// Asks for this type of user header in messages.
    /// Example: `builder.user_header::<u64>()`
    pub fn user_header<U: ZeroCopySend>(mut self) -> Self
        ensures { result ≡ record self {
          requirement = record self.requirement
              { types = record self.requirement.types { user_header = detail FixedSize U.name U.size U.alignment } };
        } }
    {
        self.requirement.types.user_header = U::type_detail(TypeVariant::FixedSize);
        self
    }

    /// Asks for this alignment of the payload of messages, in bytes, or for that of its type if that is larger.
    /// Example: `builder.payload_alignment(16)`
    pub fn payload_alignment(mut self, alignment: u64) -> Self
        ensures { result ≡ record self {
          requirement = record self.requirement
              { types = record self.requirement.types { payload = aligned self.requirement.types.payload alignment } };
        } }
    {
        self.requirement.types.payload = aligned(&self.requirement.types.payload, alignment);
        self
    }

    /// Asks for a payload with this type detail.
    /// Example: `builder.internal_set_payload_type_details(detail)`
    pub fn internal_set_payload_type_details(mut self, value: TypeDetail) -> Self
        ensures { result ≡ record self
            { requirement = record self.requirement { types = record self.requirement.types { payload = value } } } }
    {
        self.requirement.types.payload = value;
        self
    }

    /// Asks for a user header with this type detail.
    /// Example: `builder.internal_set_user_header_type_details(detail)`
    pub fn internal_set_user_header_type_details(mut self, value: TypeDetail) -> Self
        ensures { result ≡ record self
            { requirement = record self.requirement { types = record self.requirement.types { user_header = value } } } }
    {
        self.requirement.types.user_header = value;
        self
    }

    /// Sets whether a send drops the oldest message of a full buffer.
    /// Example: `builder.enable_safe_overflow(false)`
    pub fn enable_safe_overflow(mut self, value: bool) -> Self
        ensures { result ≡ record self { requirement = record self.requirement { enable_safe_overflow = Some value } } }
    {
        self.requirement.enable_safe_overflow = Some(value);
        self
    }

    /// Sets whether the messages of each publisher have sequence numbers, by which a subscriber detects the messages that it missed.
    ///
    /// Not in `iceoryx2`.
    /// Example: `builder.sequence_numbers(true)`
    pub fn sequence_numbers(mut self, value: bool) -> Self
        ensures { result ≡ record self { requirement = record self.requirement { sequence_numbers = Some value } } }
    {
        self.requirement.sequence_numbers = Some(value);
        self
    }

    /// Sets the maximum number of samples of one publisher that a subscriber may hold: an existing service must have at least this, and a
    /// created one gets exactly this.
    /// Example: `builder.subscriber_max_borrowed_samples(2)`
    pub fn subscriber_max_borrowed_samples(mut self, value: u64) -> Self
        ensures { result ≡ record self { requirement = record self.requirement { subscriber_max_borrowed_samples = Some value } } }
    {
        self.requirement.subscriber_max_borrowed_samples = Some(value);
        self
    }

    /// Sets the history size, which is the number of messages that a late subscriber may receive: an existing service must have at least
    /// this, and a created one gets exactly this.
    /// Example: `builder.history_size(4)`
    pub fn history_size(mut self, value: u64) -> Self
        ensures { result ≡ record self { requirement = record self.requirement { history_size = Some value } } }
    {
        self.requirement.history_size = Some(value);
        self
    }

    /// Sets the maximum number of waiting messages of one publisher per subscriber: an existing service must have at least this, and a
    /// created one gets exactly this.
    /// Example: `builder.subscriber_max_buffer_size(8)`
    pub fn subscriber_max_buffer_size(mut self, value: u64) -> Self
        ensures { result ≡ record self { requirement = record self.requirement { subscriber_max_buffer_size = Some value } } }
    {
        self.requirement.subscriber_max_buffer_size = Some(value);
        self
    }

    /// Sets the maximum number of subscribers: an existing service must have at least this, and a created one gets exactly this.
    /// Example: `builder.max_subscribers(8)`
    pub fn max_subscribers(mut self, value: u64) -> Self
        ensures { result ≡ record self { requirement = record self.requirement { max_subscribers = Some value } } }
    {
        self.requirement.max_subscribers = Some(value);
        self
    }

    /// Sets the maximum number of publishers: an existing service must have at least this, and a created one gets exactly this.
    /// Example: `builder.max_publishers(2)`
    pub fn max_publishers(mut self, value: u64) -> Self
        ensures { result ≡ record self { requirement = record self.requirement { max_publishers = Some value } } }
    {
        self.requirement.max_publishers = Some(value);
        self
    }

    /// Sets the maximum number of nodes: an existing service must have at least this, and a created one gets exactly this.
    /// Example: `builder.max_nodes(4)`
    pub fn max_nodes(mut self, value: u64) -> Self
        ensures { result ≡ record self { requirement = record self.requirement { max_nodes = Some value } } }
    {
        self.requirement.max_nodes = Some(value);
        self
    }
}
