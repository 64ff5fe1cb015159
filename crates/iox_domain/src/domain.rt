//! One publish-subscribe service with its ports.
ghost use Rattle.std.specs.Prelude.{◌≡◌, ◌↔◌, IsTrue, IfOk};
ghost use Rattle.iox_domain.specs.DescribeBase.Detail.{detail};
ghost use Rattle.iox_domain.specs.DescribeBase.declared.type_detail.TypeVariant.TheVariants.{FixedSize};
ghost use Rattle.iox_domain.specs.Fitting.{Fits};

use crate::domain_id::DomainId;
use crate::kept::Kept;
use crate::ports::ServicePorts;
use crate::settings::{fits, sizes_of};
use crate::state::DomainState;
use iox_describe_base::{TypeVariant, ZeroCopySend};
use iox_describe_settings::publish_subscribe::StaticConfig;
use iox_describe_settings::{Description, Settings};
use iox_domain_values::{DegradationHandler, DomainError, Handlers};
use iox_queues_base::Words;
use std::alloc::{AllocError, Global};

/// One publish-subscribe service: its ports, and their handlers.
///
/// It is one owned value, and a home: each call of a port takes it. The handlers of publishers and of subscribers are type
/// parameters, so a domain has no `dyn` in it unless these have. Ported from what the ports of an `iceoryx2` service share.
pub struct Domain<T, U, B = Handlers, D = DegradationHandler> {
    /// The id of the domain.
    pub id: DomainId,
    /// The service configuration on which its nodes agreed.
    pub agreed: StaticConfig,
    /// Its ports and their handlers: all that the calls of ports change.
    pub state: DomainState<T, U, B, D>,
}

/// Stated here once, so that no crate above proves it again.
impl<T: Drop, U: Drop, B: Drop, D: Drop> Drop for Domain<T, U, B, D> {
    fn drop(self) {
        let Domain {
            id: _,
            agreed: _,
            state: _,
        } = self;
    }
}

impl<T, U, B, D> Domain<T, U, B, D> {
    // The domain's fields.
    pub(crate) fn into_fields(self) -> (DomainId, StaticConfig, DomainState<T, U, B, D>)
        ensures { result ≡ (self.id, self.agreed, self.state) }
    {
        let Domain { id, agreed, state } = self;
        (id, agreed, state)
    }
}

impl<T: Words + ZeroCopySend, U: Copy + ZeroCopySend, B: Drop, D: Drop> Domain<T, U, B, D> {
    ghost use Rattle.iox_domain.specs.Domains.{IsNewDomain};

    /// Whether a domain over values of `T`, or slices of them, with user headers of `U` can be made from this description: it
    /// is that of a publish-subscribe service within the limits of a description, and a builder over `T` or `Slice<T>` and `U`
    /// finds its types compatible.
    pub fn fits(description: &Description) -> bool
        ensures { IsTrue result ↔ Fits (detail FixedSize T.name T.size T.alignment) (detail FixedSize U.name U.size U.alignment)
            description.now.settings }
    {
        fits::<T, U>(description)
    }

    /// A domain without ports, from a description that fits. A subscriber keeps as many connections of closed publishers as
    /// `expired_connection_buffer` says, and at least as many as samples of one connection may be held.
    ///
    /// The call fails with `OutOfMemory` if an allocation fails; the lists of ports take hardly any memory before a port is
    /// created.
    pub fn new(
        alloc: Global,
        id: DomainId,
        description: &Description,
        expired_connection_buffer: u32,
    ) -> Result<Self, DomainError>
        requires { Fits (detail FixedSize T.name T.size T.alignment) (detail FixedSize U.name U.size U.alignment) description.now.settings }
        ensures { IfOk result (λ domain. IsNewDomain id expired_connection_buffer description.now.settings domain) }
    {
        match Self::make(alloc, id, description, expired_connection_buffer) {
            Ok(domain) => Ok(domain),
            Err(_) => Err(DomainError::OutOfMemory),
        }
    }

    // A domain without ports.
    fn make(
        alloc: Global,
        id: DomainId,
        description: &Description,
        expired_connection_buffer: u32,
    ) -> Result<Self, AllocError>
        requires { Fits (detail FixedSize T.name T.size T.alignment) (detail FixedSize U.name U.size U.alignment) description.now.settings }
        ensures { IfOk result (λ domain. IsNewDomain id expired_connection_buffer description.now.settings domain) }
    {
        let Settings::PublishSubscribe(agreed) = description.settings() else {
            unreachable!();
        };
        let Some(sizes) = sizes_of(description, expired_connection_buffer) else {
            unreachable!();
        };
        let zeros = vec![in alloc; 0; T::WORDS]?;
        Ok(Domain {
            id,
            agreed: *agreed,
            state: DomainState {
                ports: ServicePorts::new(alloc, id.service, sizes)?,
                publisher_handlers: Kept::new(alloc),
                subscriber_handlers: Kept::new(alloc),
                blank: T::of_words(&zeros),
            },
        })
    }
}
