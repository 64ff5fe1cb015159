//! The tables of names that the errors of all patterns share, so that each name is written once.

/// The variant with the same name.
macro_rules! named_alike {
    ($value:expr, $From:ident to $To:ident: $($name:ident)*) => {
        match $value {
            $($From::$name => $To::$name,)*
        }
    };
}

/// The text of each variant: alone, or in the error around it.
macro_rules! variant_displayed {
    ($error:expr, $Error:ident: $($name:ident)*) => {
        match $error {
            $($Error::$name => concat!(stringify!($Error), "::", stringify!($name)),)*
        }
    };
    ($error:expr, $Error:ident in $Around:ident: $($name:ident)*) => {
        match $error {
            $($Error::$name => concat!(
                stringify!($Around), "::", stringify!($Error), "(", stringify!($name), ")"
            ),)*
        }
    };
}

/// The text of an error of opening, `[alone]` or `[within in around]`; only the variants of its own pattern are listed by the caller.
macro_rules! open_displayed {
    ($error:expr, [$($types:tt)*]: $($own:ident)*) => {
        $crate::errors::tables::variant_displayed!($error, $($types)*: $($own)*
            DoesNotExist InsufficientPermissions ServiceInCorruptedState InternalFailure
            HangsInCreation ExceedsMaxNumberOfNodes IsMarkedForDestruction OutOfMemory)
    };
}

/// The text of an error of creating, in the same form.
macro_rules! create_displayed {
    ($error:expr, [$($types:tt)*]: $($own:ident)*) => {
        $crate::errors::tables::variant_displayed!($error, $($types)*: $($own)*
            AlreadyExists InsufficientPermissions InternalFailure IsBeingCreatedByAnotherInstance
            HangsInCreation ServiceInCorruptedState OutOfMemory)
    };
}

/// The error with the same name, or the error of the unmet clause.
macro_rules! of_open_failure {
    ($failure:expr, $Error:ident) => {
        match $failure {
            OpenFailure::Clause(unmet) => $Error::from(unmet),
            OpenFailure::DoesNotExist => $Error::DoesNotExist,
            OpenFailure::InsufficientPermissions => $Error::InsufficientPermissions,
            OpenFailure::ServiceInCorruptedState => $Error::ServiceInCorruptedState,
            OpenFailure::InternalFailure => $Error::InternalFailure,
            OpenFailure::HangsInCreation => $Error::HangsInCreation,
            OpenFailure::ExceedsMaxNumberOfNodes => $Error::ExceedsMaxNumberOfNodes,
            OpenFailure::IsMarkedForDestruction => $Error::IsMarkedForDestruction,
            OpenFailure::OutOfMemory => $Error::OutOfMemory,
        }
    };
}

/// The error with the same name; the variant for a history that doesn't fit is passed by the caller.
macro_rules! of_create_failure {
    ($failure:expr, $Error:ident, $small:ident) => {
        match $failure {
            CreateFailure::AlreadyExists => $Error::AlreadyExists,
            CreateFailure::InsufficientPermissions => $Error::InsufficientPermissions,
            CreateFailure::InternalFailure => $Error::InternalFailure,
            CreateFailure::IsBeingCreatedByAnotherInstance =>
                $Error::IsBeingCreatedByAnotherInstance,
            CreateFailure::HangsInCreation => $Error::HangsInCreation,
            CreateFailure::ServiceInCorruptedState => $Error::ServiceInCorruptedState,
            CreateFailure::SubscriberBufferMustBeLargerThanHistorySize => $Error::$small,
            CreateFailure::OutOfMemory => $Error::OutOfMemory,
        }
    };
}

/// The error with the same name, around the inner error.
macro_rules! of_either_failure {
    ($failure:expr, $Either:ident of $Open:ident, $Create:ident) => {
        match $failure {
            OpenOrCreateFailure::Open(failure) => $Either::$Open($Open::from(failure)),
            OpenOrCreateFailure::Create(failure) => $Either::$Create($Create::from(failure)),
            OpenOrCreateFailure::SystemInFlux => $Either::SystemInFlux,
        }
    };
}

pub(crate) use create_displayed;
pub(crate) use named_alike;
pub(crate) use of_create_failure;
pub(crate) use of_either_failure;
pub(crate) use of_open_failure;
pub(crate) use open_displayed;
pub(crate) use variant_displayed;
