//! How a domain is taken out, to be driven elsewhere, and put back.
ghost use Rattle.std.specs.Prelude.{◌≡◌, ◌↔◌, IsTrue, IfOk};
ghost use Rattle.iox_hub_base.specs.Taking.{Takes, IsAwaited, Puts};
ghost use Rattle.iox_hub_base.specs.Texts.{take_text, foreign_text};

use crate::presence::Presence;
use crate::services::Services;
use iox_domain::Domain;
use std::fmt;
use thiserror::Error;

/// Why a domain can't be taken. Not in `iceoryx2`.
#[derive(Clone, Copy, Debug, PartialEq, Eq, Hash, Error)]
#[error("{}", self.text())]
pub enum TakeError {
    /// The domain is out, or none was made.
    DomainIsOut,
}

impl TakeError {
    /// The text that the error displays.
    /// Example: `let text = TakeError::DomainIsOut.text();`
    pub fn text(&self) -> &'static str
        ensures { result.now ≡ take_text self.now }
    {
        match self {
            TakeError::DomainIsOut => "TakeError::DomainIsOut",
        }
    }
}

/// The error for a domain that can't be put back: its hub, its service and its agreement aren't those of a domain that is out. The domain
/// is handed back. Not in `iceoryx2`.
#[derive(Drop)]
pub struct DomainIsForeign<X> {
    /// The domain that is handed back.
    pub domain: X,
}

impl<X> DomainIsForeign<X> {
    /// The text that the error displays.
    /// Example: `let text = foreign.text();`
    pub fn text(&self) -> &'static str
        ensures { result.now ≡ foreign_text }
    {
        "DomainIsForeign"
    }
}

impl<X> fmt::Display for DomainIsForeign<X> {
    ghost use Rattle.std.specs.Prelude.{Some};
    ghost use Rattle.iox_hub_base.specs.Texts.{foreign_text};

    ghost output = { λ error. Some foreign_text };

    fn fmt<W: fmt::Write>(&self, f: &mut fmt::Formatter<W>) -> fmt::Result {
        f.pad(self.text())
    }
}

impl<T: Copy, U: Copy, B: Drop, D: Drop> Services<T, U, B, D> {
    /// Takes the domain of a service out, to be driven elsewhere. The domain is of this hub and number. Its agreement stays in its place,
    /// so that only a domain with the same agreement is put back. It takes no memory.
    ///
    /// Refused with `DomainIsOut` if the domain is out, or none was made; then nothing has changed.
    pub fn take(&mut self, number: u64) -> Result<Domain<T, U, B, D>, TakeError>
        ensures takes { Takes number self.old result self.new }
        ensures own { IfOk result (λ domain. domain.id ≡ record { hub = self.old.hub; service = number }) }
    {
        let Some(presence) = self.presences.get_mut(number) else {
            return Err(TakeError::DomainIsOut);
        };
        presence.take().ok_or(TakeError::DomainIsOut)
    }

    /// Puts back a domain that was taken out, as it is handed in. It takes no memory.
    ///
    /// Refused with `DomainIsForeign`, the domain handed back, unless the domain is awaited (`awaits`); then nothing has changed.
    pub fn put(
        &mut self,
        domain: Domain<T, U, B, D>,
    ) -> Result<(), DomainIsForeign<Domain<T, U, B, D>>>
        ensures { Puts domain self.old result self.new }
    {
        if !self.awaits(&domain) {
            return Err(DomainIsForeign { domain });
        }
        self.presences
            .replace(domain.id.service, Presence::Here(domain));
        Ok(())
    }

    /// Whether `put` would accept this domain: it is of this hub, and the domain of its service's number is out with exactly its agreement.
    /// Example: `let is_awaited = services.awaits(&domain);`
    pub fn awaits(&self, domain: &Domain<T, U, B, D>) -> bool
        ensures { IsTrue result ↔ IsAwaited domain.now self.now }
    {
        if domain.id.hub != self.hub {
            return false;
        }
        match self.presences.get(domain.id.service) {
            Some(presence) => presence.awaits(&domain.agreed),
            None => false,
        }
    }
}
