//! The calls of lanes that the cases name.
use iox_lanes::Call;
use std::alloc::{AllocError, Global};

/// Which call it is.
#[derive(Clone, Copy)]
pub(crate) enum Asked {
    Lend,
    Write,
    Send,
    GiveUp,
    Receive,
    Read,
    Release,
}

/// This call, for a slot, with the value that a write has.
pub(crate) fn call(alloc: Global, asked: Asked, slot: u64, value: u64) -> Result<Call, AllocError> {
    match asked {
        Asked::Lend => Ok(Call::LoanUninit),
        Asked::Write => Call::write(alloc, slot, &value, &()),
        Asked::Send => Ok(Call::Send { loan: slot }),
        Asked::GiveUp => Ok(Call::DropLoan { loan: slot }),
        Asked::Receive => Ok(Call::Receive),
        Asked::Read => Ok(Call::Read { sample: slot }),
        Asked::Release => Ok(Call::Release { sample: slot }),
    }
}
