//! Turns what is asked of a service into a factory of ports.
ghost use Rattle.std.specs.Result.{result_map_both};
ghost use Rattle.iox_negotiate_base.specs.DescribeBase.Hash.{service_hash_of};
ghost use Rattle.iox_negotiate_base.specs.DescribeSettings.Agreement.{agreement};
ghost use Rattle.iox_negotiate_base.specs.Creating.{CreatesIf};
ghost use Rattle.iox_negotiate_base.specs.Opening.{Opens, OpensOrCreates};
ghost use Rattle.iox_negotiate.specs.Negotiation.{Negotiates};

use crate::asked::Asked;
use crate::factory::PortFactory;
use crate::patterns::Negotiated;
use iox_negotiate_base::{Request, Storage};
use std::alloc::Global;

/// Creates the service that is asked for.
pub(crate) fn create<'a, P: Negotiated, S: Storage>(
    alloc: Global,
    asked: &Asked<'a, P>,
    storage: &mut S,
) -> Result<PortFactory<P>, P::CreateError>
    ensures { Negotiates S.gives (S.id storage.old) asked.now.node P.create_error
        (λ made answer. CreatesIf asked.now.hash asked.now.node
        (agreement asked.now.name (service_hash_of P.pattern asked.now.name) (P.settings asked.now.config) asked.now.attributes.now)
        asked.now.refusal made answer) storage.old (result_map_both (λ factory. factory.membership) (λ error. error) result) storage.new }
{
    let id = storage.id();
    match iox_negotiate_base::create(alloc, asked, storage) {
        Ok(service) => Ok(PortFactory::new(id, asked.node(), service)),
        Err(failure) => Err(P::create_error(failure)),
    }
}

/// Opens the service that is asked for.
pub(crate) fn open<'a, P: Negotiated, S: Storage>(
    alloc: Global,
    asked: &Asked<'a, P>,
    storage: &mut S,
) -> Result<PortFactory<P>, P::OpenError>
    ensures { Negotiates S.gives (S.id storage.old) asked.now.node P.open_error
        (λ made answer. Opens asked.now.hash asked.now.node (λ given. P.verdict asked.now.requirement.now given) made answer)
        storage.old (result_map_both (λ factory. factory.membership) (λ error. error) result) storage.new }
{
    let id = storage.id();
    match iox_negotiate_base::open(alloc, asked, storage) {
        Ok(service) => Ok(PortFactory::new(id, asked.node(), service)),
        Err(failure) => Err(P::open_error(failure)),
    }
}

/// Opens the service that is asked for, or creates it if it doesn't exist.
pub(crate) fn open_or_create<'a, P: Negotiated, S: Storage>(
    alloc: Global,
    asked: &Asked<'a, P>,
    storage: &mut S,
) -> Result<PortFactory<P>, P::OpenOrCreateError>
    ensures { Negotiates S.gives (S.id storage.old) asked.now.node P.open_or_create_error
        (λ made answer. OpensOrCreates asked.now.hash asked.now.node (λ given. P.verdict asked.now.requirement.now given)
        (agreement asked.now.name (service_hash_of P.pattern asked.now.name) (P.settings asked.now.config) asked.now.attributes.now)
        asked.now.refusal made answer) storage.old (result_map_both (λ factory. factory.membership) (λ error. error) result) storage.new }
{
    let id = storage.id();
    match iox_negotiate_base::open_or_create(alloc, asked, storage) {
        Ok(service) => Ok(PortFactory::new(id, asked.node(), service)),
        Err(failure) => Err(P::open_or_create_error(failure)),
    }
}
