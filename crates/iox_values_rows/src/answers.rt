//! Results of helpers, which a test asserts.
use std::alloc::{AllocError, Global};
use std::fmt::Debug;
use std::process::Abort;

/// Asserts that each result is true. For any other result the message distinguishes a wrong answer from a failed allocation.
pub(crate) fn hold(rt: &impl Abort, answers: &[Result<bool, AllocError>]) {
    for (place, answer) in answers.iter().enumerate() {
        assert!(rt; *answer == Ok(true), "answer {place}: {answer:?}");
    }
}

/// Whether each answer is true.
pub(crate) fn all(answers: &[Result<bool, AllocError>]) -> Result<bool, AllocError> {
    for answer in answers {
        if *answer != Ok(true) {
            return *answer;
        }
    }
    Ok(true)
}

/// The error of a call for which memory ran out; None if there was enough memory.
pub(crate) type Want = Option<AllocError>;

/// Fails if memory ran out for one of these calls.
pub(crate) fn find_memory(wants: &[Want]) -> Result<(), AllocError> {
    for want in wants {
        if let Some(error) = *want {
            return Err(error);
        }
    }
    Ok(())
}

/// Asserts that memory ran out for each of these calls.
pub(crate) fn are_refused(rt: &impl Abort, wants: &[Want]) {
    for (place, want) in wants.iter().enumerate() {
        assert!(rt; want.is_some(), "call {place}");
    }
}

/// Whether `Debug` shows the value as this text.
pub(crate) fn is_shown<T: Debug>(alloc: Global, value: &T, text: &str) -> Result<bool, AllocError> {
    Ok(format!(in alloc; "{value:?}")?.as_str() == text)
}
