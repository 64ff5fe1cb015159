//! Why a service isn't created or opened, for any pattern.

/// Why a service isn't created.
#[derive(Clone, Copy)]
pub enum CreateFailure {
    /// The service exists already.
    AlreadyExists,
    /// The node lacks the permission.
    InsufficientPermissions,
    /// A setting is beyond its limits, or a storage operation failed.
    InternalFailure,
    /// Another node is creating the service.
    IsBeingCreatedByAnotherInstance,
    /// When the service was looked up, another node had its lock.
    HangsInCreation,
    /// The stored data isn't a description of this service.
    ServiceInCorruptedState,
    /// The history doesn't fit into a buffer that blocks the publisher when it is full.
    SubscriberBufferMustBeLargerThanHistorySize,
    /// Memory ran out.
    OutOfMemory,
}

/// Why a service isn't opened; `V` is the type of the error of an unmet clause.
#[derive(Clone, Copy)]
pub enum OpenFailure<V> {
    /// The service doesn't meet this clause, which is the first unmet one.
    Clause(V),
    /// The service doesn't exist.
    DoesNotExist,
    /// The node lacks the permission.
    InsufficientPermissions,
    /// The stored data isn't a description of this service, or its segment was absent in each round.
    ServiceInCorruptedState,
    /// A storage operation failed.
    InternalFailure,
    /// When the service was looked up, another node had its lock.
    HangsInCreation,
    /// The service has its maximum number of nodes, and this node isn't one of them.
    ExceedsMaxNumberOfNodes,
    /// The last node left the service, so it is about to be removed.
    IsMarkedForDestruction,
    /// Memory ran out.
    OutOfMemory,
}

/// Why a service is neither opened nor created.
#[derive(Clone, Copy)]
pub enum OpenOrCreateFailure<V> {
    /// The service exists, and isn't opened.
    Open(OpenFailure<V>),
    /// The service doesn't exist, and isn't created.
    Create(CreateFailure),
    /// In each round, other nodes were creating or removing the service.
    SystemInFlux,
}
