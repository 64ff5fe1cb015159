//! How factories are closed.
ghost use Rattle.iox_container.specs.NumberTable.{value_at};
ghost use Rattle.iox_hub_commands.specs.Closing.{ClosesNumbered};

use crate::services::factories::Factories;
use iox_hub_base::Hub;
use iox_negotiate_base::errors::CloseError;

impl Factories {
    /// Closes a factory, whose number names nothing any longer, even if its description or segment couldn't be removed.
    ///
    /// None, and nothing happens, if the number has no factory of this hub. Refused with `StillInUse`, and nothing happens, if
    /// `Hub::is_in_use` says so; with `UnableToRemoveDescription` and `UnableToRemoveSegment` as `Hub::close` refuses it.
    pub fn close<T: Copy, U: Copy, B: Drop, D: Drop>(
        &mut self,
        hub: &mut Hub<T, U, B, D>,
        factory: u64,
    ) -> Option<Result<(), CloseError>>
        ensures { ClosesNumbered factory (value_at self.old.made factory) self.old.made hub.old result self.new.made hub.new }
    {
        let made = self.made.get(factory)?;
        if !made.is_of(hub) {
            return None;
        }
        if made.is_in_use(hub) {
            return Some(Err(CloseError::StillInUse));
        }
        let made = self.made.remove(factory)?;
        Some(made.close(hub))
    }
}
