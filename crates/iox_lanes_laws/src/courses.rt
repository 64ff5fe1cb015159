//! Theorems on the accesses of whole calls in any run of lanes, however the steps of other parties come between them.
//!
//! Each theorem is the contract of a function that does nothing. A proof uses a theorem by calling its function; then the theorem is among
//! the facts that the caller knows:
//!
//! ```
//! publishers_keep_course();
//! ```

ghost use Rattle.iox_lanes_laws.specs.Accesses.{PublishersKeepCourse, PublishersEndAtOnce, SubscribersKeepCourse, SubscribersEndAtOnce};
ghost use Rattle.iox_lanes_laws.specs.Accesses.{ReleasesEndSoon};
ghost use Rattle.iox_lanes_laws.specs.FinishedReceives.{FinishedReceivesFollow};
ghost use Rattle.iox_lanes_laws.specs.OrderedTakes.{ReceivesStandInOrder, StepsTakeNow, TakesStandInOrder};
ghost use Rattle.iox_lanes_laws.specs.StandingSubscribers.{EntriesKeepLimits, RunsKeepLimits};
ghost use Rattle.iox_lanes_laws.specs.Takes.{ReceivesTakeInOrder};

/// A publisher's call makes exactly the accesses of its course, which the answers of these accesses determine, whoever makes steps in
/// between. It ends directly after the last one.
pub fn publishers_keep_course()
    ensures course { PublishersKeepCourse }
    ensures ends { PublishersEndAtOnce }
{}

/// A subscriber's call makes exactly the accesses of its course, which the answers of these accesses determine, whoever makes steps in
/// between. It ends directly after the last one.
pub fn subscribers_keep_course()
    ensures course { SubscribersKeepCourse }
    ensures ends { SubscribersEndAtOnce }
{}

/// A release makes at most four steps between its beginning and its last one.
pub fn releases_end_soon()
    ensures { ReleasesEndSoon }
{}

/// A receive takes or looks once at each connection, in their order, up to the first that gives a message, whoever makes steps in between.
/// It only looks exactly where the maximum number of samples is borrowed. If no connection gives a message, its answer is
/// `ExceedsMaxBorrows` if a look saw a message, and `Nothing` otherwise.
pub fn receives_take_in_order()
    ensures { ReceivesTakeInOrder }
{}

/// Each receive that ended took its message as [`receives_take_in_order`] says, wherever steps brought the lanes: the call in `finished`
/// began at its first moment, took or looked at its connections by its own steps from then on, and at its last moment answered what these
/// takes say. This holds as long as at most 2^63 steps were made.
pub fn finished_receives_follow()
    ensures { FinishedReceivesFollow }
{}

/// The takes and looks of receives are those of the order of their connection, whoever makes steps in between. A step adds to an order only
/// the takes and looks that the connection's subscriber makes there by this step, at the moment of the step. So after any entries the
/// order's takes are those that it had, followed by exactly those that its subscriber made there by these entries, in their order; as long
/// as at most 2^63 steps were made.
pub fn takes_stand_in_order()
    ensures steps { StepsTakeNow }
    ensures entries { TakesStandInOrder }
{}

/// What a receive that ended took at a connection is one piece of the connection's order, within the time of the call: after what was taken
/// there up to its first moment, and before what was taken from its last moment on. This holds as long as at most 2^63 steps were made.
pub fn receives_stand_in_order()
    ensures { ReceivesStandInOrder }
{}

/// No run changes a subscriber's borrow limit, nor its connections and their order. No subscriber is added or removed.
pub fn borrow_limits_stay()
    ensures runs { RunsKeepLimits }
    ensures leads { EntriesKeepLimits }
{}
