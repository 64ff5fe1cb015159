//! Theorems about every creation and every opening. Each one is the contract of a function that does nothing.
ghost use Rattle.iox_negotiate_base.specs.Laws.{CreatesInSix, LeavesNoLock, RefusedLeavesNoSegment, CreatedIsPublished, OpensInTen};
ghost use Rattle.iox_negotiate_base.specs.Laws.{OpensOrCreatesInFourteen, EitherLeavesNoLock, RefusedEitherLeavesNoSegment};

use crate::request::Request;

/// A creation makes at most six storage operations.
pub fn creates_in_six()
    ensures { CreatesInSix }
{}

/// A creation leaves no lock, however it ends.
pub fn leaves_no_lock()
    ensures { LeavesNoLock }
{}

/// A refused creation tries to remove each segment that it made.
pub fn refused_leaves_no_segment()
    ensures { RefusedLeavesNoSegment }
{}

/// A successful creation made the segment and published the line of the description under the number that it returns.
pub fn created_is_published()
    ensures { CreatedIsPublished }
{}

/// An opening makes at most ten storage operations.
pub fn opens_in_ten<R: Request>()
    ensures { OpensInTen R.ClauseError }
{}

/// An opening or creation makes at most fourteen storage operations.
pub fn opens_or_creates_in_fourteen<R: Request>()
    ensures { OpensOrCreatesInFourteen R.ClauseError }
{}

/// An opening or creation leaves no lock, however it ends.
pub fn either_leaves_no_lock<R: Request>()
    ensures { EitherLeavesNoLock R.ClauseError }
{}

/// A refused opening or creation tries to remove each segment that it made.
pub fn refused_either_leaves_no_segment<R: Request>()
    ensures { RefusedEitherLeavesNoSegment R.ClauseError }
{}
