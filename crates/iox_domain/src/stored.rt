//! The handlers of a port, looked up where they are asked.
ghost use Rattle.iox_domain.specs.Handling.{stored_degrades, kept_decides};
ghost use Rattle.iox_domain.specs.Kept.{kept_under};

use crate::kept::Kept;
use crate::nobody::Nobody;
use iox_domain_values::{
    BackpressureDecision, BackpressureInfo, Decides, DegradationAction, DegradationCause,
    DegradationInfo, Degrades,
};

/// The handlers of the port with this number: those that are stored for it, or `Nobody`. Most calls ask no handler, so they are looked up
/// only where one is asked.
#[derive(Drop)]
pub(crate) struct Stored<'a, H> {
    pub(crate) handlers: &'a Kept<H>,
    pub(crate) number: u64,
}

impl<'a, H: Degrades> Degrades for Stored<'a, H> {
    ghost degrades = { λ stored. stored_degrades (λ kept. H.degrades kept) (kept_under stored.number stored.handlers.now) };

    fn degrade(&self, cause: DegradationCause, info: &DegradationInfo) -> DegradationAction {
        match self.handlers.get(self.number) {
            Some(kept) => kept.degrade(cause, info),
            None => Nobody.degrade(cause, info),
        }
    }
}

impl<'a, H: Decides> Decides for Stored<'a, H> {
    ghost decides = { λ stored. kept_decides (λ kept. H.decides kept) (kept_under stored.number stored.handlers.now) };

    fn decide(&self, info: &BackpressureInfo) -> BackpressureDecision {
        match self.handlers.get(self.number) {
            Some(kept) => kept.decide(info),
            None => Nobody.decide(info),
        }
    }
}
