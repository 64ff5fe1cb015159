//! What a builder asks of a service, as a request of the rounds.
ghost use Rattle.std.specs.Prelude.{◌≡◌, None};
ghost use Rattle.iox_negotiate_base.specs.DescribeBase.Hash.{service_hash_of};
ghost use Rattle.iox_negotiate_base.specs.DescribeSettings.Agreement.{agreement, AreWithinLimits, HasNoRoomForHistory};
ghost use Rattle.iox_negotiate_base.specs.Describe.Within.{IsWithinLimits};
ghost use Rattle.iox_negotiate.specs.Asked.{IsRefusal};

use crate::laws::parts_have_form;
use iox_describe::pattern::Pattern;
use iox_describe::{AttributeSpecifier, Description, ServiceHash, ServiceName, service_hash};
use iox_negotiate_base::{BoxedDescription, CreateFailure, Request};
use std::alloc::{AllocError, Global};

/// What a node asks of a service: what an existing service must meet, and the settings and attributes with which a service is created.
///
/// It borrows the requirement and the attributes, so it doesn't allocate.
#[derive(Drop)]
pub struct Asked<'a, P: Pattern> {
    name: ServiceName,
    hash: ServiceHash,
    node: u64,
    requirement: &'a P::Requirement,
    config: P::StaticConfig,
    attributes: &'a AttributeSpecifier,
    refusal: Option<CreateFailure>,
    ghost hashed: { hash ≡ service_hash_of P.pattern name },
}

impl<'a, P: Pattern> Asked<'a, P> {
    /// What this node asks of the service with this name. If the service is created, it gets the adjusted settings of the requirement, and
    /// these attributes.
    /// Example: `Asked::<PublishSubscribe>::new(name, 1, &requirement, &attributes)`
    pub fn new(
        name: ServiceName,
        node: u64,
        requirement: &'a P::Requirement,
        attributes: &'a AttributeSpecifier,
    ) -> Self
        ensures name { result.name ≡ name }
        ensures hash { result.hash ≡ service_hash_of P.pattern name }
        ensures node { result.node ≡ node }
        ensures requirement { result.requirement.now ≡ requirement.now }
        ensures config { result.config ≡ P.adjusted (P.asked requirement.now) }
        ensures attributes { result.attributes.now ≡ attributes.now }
        ensures refusal { let config = P.adjusted (P.asked requirement.now) in IsRefusal (AreWithinLimits (P.settings config))
            (HasNoRoomForHistory (P.settings config)) result.refusal }
        ensures within { result.refusal ≡ None → IsWithinLimits (agreement name (service_hash_of P.pattern name)
            (P.settings (P.adjusted (P.asked requirement.now))) attributes.now) }
    {
        let config = P::adjusted(P::asked(requirement));
        let hash = service_hash(P::pattern(), &name);
        parts_have_form(name, hash, P::settings(config), attributes);
        Asked {
            name,
            hash,
            node,
            requirement,
            config,
            attributes,
            refusal: refusal_of::<P>(&config),
        }
    }
}

/// Why no service can be created with the settings of a requirement, if that is so. The requirement alone shows it, and the call doesn't
/// allocate.
///
/// Not in `iceoryx2`.
/// Example: `let failure = settings_refusal::<PublishSubscribe>(&requirement);`
pub fn settings_refusal<P: Pattern>(requirement: &P::Requirement) -> Option<CreateFailure>
    ensures { let config = P.adjusted (P.asked requirement.now) in IsRefusal (AreWithinLimits (P.settings config))
        (HasNoRoomForHistory (P.settings config)) result }
{
    refusal_of::<P>(&P::adjusted(P::asked(requirement)))
}

/// Why no service can be created with these settings, if that is so.
fn refusal_of<P: Pattern>(config: &P::StaticConfig) -> Option<CreateFailure>
    ensures { IsRefusal (AreWithinLimits (P.settings config.now)) (HasNoRoomForHistory (P.settings config.now)) result }
{
    if !P::is_within_limits(config) {
        return Some(CreateFailure::InternalFailure);
    }
    if P::is_history_too_long(config) {
        return Some(CreateFailure::SubscriberBufferMustBeLargerThanHistorySize);
    }
    None
}

impl<'a, P: Pattern> Request for Asked<'a, P> {
    type ClauseError = P::ClauseError;

    ghost hash = { λ a. a.hash };

    ghost node = { λ a. a.node };

    ghost verdict = { λ a given. P.verdict a.requirement.now given };

    ghost refusal = { λ a. a.refusal };

    ghost created = { λ a. agreement a.name (service_hash_of P.pattern a.name) (P.settings a.config) a.attributes.now };

    fn hash(&self) -> &ServiceHash {
        &self.hash
    }

    fn node(&self) -> u64 {
        self.node
    }

    fn verdict(&self, description: &Description) -> Result<(), Self::ClauseError> {
        P::verdict(self.requirement, description)
    }

    fn refusal(&self) -> Option<CreateFailure> {
        self.refusal
    }

    fn max_nodes(&self) -> u64 {
        P::settings(self.config).max_nodes()
    }

    fn describe(&self, alloc: Global) -> Result<BoxedDescription, AllocError> {
        let attributes = self.attributes.try_clone(alloc)?;
        BoxedDescription::new(
            alloc,
            Description::of_parts(self.name, self.hash, P::settings(self.config), attributes),
        )
    }
}
