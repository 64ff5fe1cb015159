//! Checks of results.
use std::alloc::{AllocError, Global};
use std::fmt::Display;
use std::process::Abort;

/// Aborts unless the answer is true.
pub(crate) fn hold(rt: &impl Abort, answer: Result<bool, AllocError>) -> Result<(), AllocError> {
    assert!(rt; answer?);
    Ok(())
}

/// True for true. False becomes an allocation failure, as it can only mean that memory ran out.
pub(crate) fn in_memory(goes: bool) -> Result<bool, AllocError> {
    if goes { Ok(true) } else { Err(AllocError) }
}

/// Whether each value displays as the text beside it.
pub(crate) fn display<E: Display>(alloc: Global, rows: &[(E, &str)]) -> Result<bool, AllocError> {
    for row in rows {
        if format!(in alloc; "{}", row.0)?.as_str() != row.1 {
            return Ok(false);
        }
    }
    Ok(true)
}
