//! An open service of a node: a factory of ports.
ghost use Rattle.std.specs.Prelude.{◌≡◌, ◌≢◌, Some, None, Ok, Err, IsSome, MatchResult};
ghost use Rattle.std.specs.Result.{result_map_both};
ghost use Rattle.iox_negotiate_base.specs.Describe.Within.{HasForm};
ghost use Rattle.iox_negotiate_base.specs.Runs.{Does};
ghost use Rattle.iox_negotiate_base.specs.declared.errors.close.CloseError.TheVariants.{NotThisStorage};
ghost use Rattle.iox_negotiate.specs.Factory.{membership, segment_removed, RemovesSegment, RemovalGoes, Removes, Closes};

use iox_describe::pattern::Pattern;
use iox_describe::{AttributeSpecifier, Description, ServiceName, has_form};
use iox_negotiate_base::errors::CloseError;
use iox_negotiate_base::{LeaveAnswer, Opened, RemoveAnswer, Storage};
use std::marker::PhantomData;

/// The membership of a node in a service of a storage.
#[derive(Drop)]
pub struct Membership {
    storage: u64,
    node: u64,
    service: Opened,
}

impl Membership {
    /// Removes one factory of the node from the segment of the service, and removes the service if this was the last one.
    fn leave<S: Storage>(&self, storage: &mut S) -> Result<(), CloseError>
        ensures { Does S.gives storage.old (λ made. Closes self.now.service.description.service_hash self.now.service.number
            self.now.node made result) storage.new }
    {
        let hash = self.service.description.get().service_hash();
        let answer = storage.leave(hash, self.service.number, self.node);
        match answer {
            LeaveAnswer::Stays => Ok(()),
            LeaveAnswer::Emptied => self.remove(storage),
        }
    }

    // Removes the description, and then the segment.
    fn remove<S: Storage>(&self, storage: &mut S) -> Result<(), CloseError>
        ensures { Does S.gives storage.old (λ made. Removes self.now.service.description.service_hash self.now.service.number made
            result) storage.new }
    {
        let hash = self.service.description.get().service_hash();
        let answer = storage.remove_description(hash, self.service.number);
        match answer {
            RemoveAnswer::Removed => self.remove_segment(storage),
            RemoveAnswer::Fault => Err(CloseError::UnableToRemoveDescription),
        }
    }

    fn remove_segment<S: Storage>(&self, storage: &mut S) -> Result<(), CloseError>
        ensures { Does S.gives storage.old (λ made. RemovesSegment self.now.service.description.service_hash self.now.service.number
            made result) storage.new }
    {
        let hash = self.service.description.get().service_hash();
        let answer = storage.remove_segment(hash, self.service.number);
        segment_removed(answer)
    }
}

fn segment_removed(answer: RemoveAnswer) -> Result<(), CloseError>
    ensures { result ≡ segment_removed answer }
{
    match answer {
        RemoveAnswer::Removed => Ok(()),
        RemoveAnswer::Fault => Err(CloseError::UnableToRemoveSegment),
    }
}

/// A service that a node has open, and from which its ports are created. It must be closed in the storage in which it was opened; if a
/// factory is dropped instead, its node stays registered.
///
/// Ported from `iceoryx2::service::port_factory`, as one type for the three patterns.
#[derive(Drop)]
pub struct PortFactory<P: Pattern> {
    membership: Membership,
    of: PhantomData<P>,
    ghost agreed: { IsSome (P.static_config membership.service.description.settings) },
}

/// The error of closing a factory that wasn't closed, or whose closing left something behind.
#[derive(Drop)]
pub struct NotClosed<P: Pattern> {
    /// Why the factory wasn't closed, or what was left behind.
    pub error: CloseError,
    /// The factory, if it is returned to the caller, which is so for `NotThisStorage`.
    pub factory: Option<PortFactory<P>>,
}

impl<P: Pattern> PortFactory<P> {
    /// The factory of a node in a service of this pattern.
    pub(crate) fn new(storage: u64, node: u64, service: Opened) -> Self
        requires { IsSome (P.static_config service.description.settings) }
        ensures { result.membership ≡ membership storage node service }
    {
        PortFactory {
            membership: Membership {
                storage,
                node,
                service,
            },
            of: PhantomData,
        }
    }

    /// The name of the service.
    /// Example: `factory.name().as_bytes()`
    pub fn name(&self) -> &ServiceName
        ensures { result.now ≡ self.now.membership.service.description.name }
    {
        self.membership.service.description.get().name()
    }

    /// The settings on which the nodes agree.
    /// Example: `let nodes = factory.static_config().max_nodes;`
    pub fn static_config(&self) -> &P::StaticConfig
        ensures { P.static_config self.now.membership.service.description.settings ≡ Some result.now }
    {
        P::static_config_in(self.membership.service.description.get().settings()).unwrap()
    }

    /// The attributes of the service.
    /// Example: `let pairs = factory.attributes().as_slice();`
    pub fn attributes(&self) -> &AttributeSpecifier
        ensures { result.now ≡ self.now.membership.service.description.attributes }
    {
        self.membership.service.description.get().attributes()
    }

    /// The number of the service.
    /// Example: `factory.number()`
    pub fn number(&self) -> u64
        ensures { result ≡ self.now.membership.service.number }
    {
        self.membership.service.number
    }

    /// The description, which states what the nodes of the service agree on.
    ///
    /// Not in `iceoryx2`.
    /// Example: `let fits = Domain::<u64, ()>::fits(factory.description());`
    pub fn description(&self) -> &Description
        ensures value { result.now ≡ self.now.membership.service.description }
        ensures form { HasForm self.now.membership.service.description }
    {
        let description = self.membership.service.description.get();
        has_form(description);
        description
    }

    /// Whether the call that returned the factory created the service; false if it opened an existing one.
    ///
    /// Not in `iceoryx2`.
    /// Example: `factory.is_new()`
    pub fn is_new(&self) -> bool
        ensures { result ≡ self.now.membership.service.is_new }
    {
        self.membership.service.is_new
    }

    /// The id of the storage in which the factory was opened.
    ///
    /// Not in `iceoryx2`.
    /// Example: `factory.storage()`
    pub fn storage(&self) -> u64
        ensures { result ≡ self.now.membership.storage }
    {
        self.membership.storage
    }

    /// The node of the factory.
    /// Example: `factory.node()`
    pub fn node(&self) -> u64
        ensures { result ≡ self.now.membership.node }
    {
        self.membership.node
    }

    /// Closes the factory: its node has one factory fewer in the segment of the service. The last factory of the last node also
    /// removes the description and the segment.
    ///
    /// Refused with `NotThisStorage` if the storage has another id than the one in which the factory was opened; then nothing is
    /// accessed, and the factory is returned to the caller. Refused with `UnableToRemoveDescription` or `UnableToRemoveSegment` as
    /// the storage reports; the factory is then consumed.
    /// Example: `let closed = factory.close(&mut table);`
    pub fn close<S: Storage>(self, storage: &mut S) -> Result<(), NotClosed<P>>
        ensures other_storage { S.id storage.old ≢ self.membership.storage → (storage.new ≡ storage.old)
            × (result ≡ Err (record { error = NotThisStorage; factory = Some self })) }
        ensures this_storage { S.id storage.old ≡ self.membership.storage
            → Does S.gives storage.old
            (λ made. Closes self.membership.service.description.service_hash self.membership.service.number self.membership.node made
            (result_map_both (λ done. done) (λ refused. refused.error) result)) storage.new }
        ensures spent { S.id storage.old ≡ self.membership.storage
            → MatchResult result (λ done. Unit {0}) (λ refused. refused.factory ≡ None) }
    {
        if storage.id() != self.membership.storage {
            return Err(NotClosed {
                error: CloseError::NotThisStorage,
                factory: Some(self),
            });
        }
        match self.membership.leave(storage) {
            Ok(()) => Ok(()),
            Err(error) => Err(NotClosed {
                error,
                factory: None,
            }),
        }
    }
}
