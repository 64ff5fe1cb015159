//! Theorems about the values of ports. They are the contracts of functions that do nothing.
ghost use Rattle.iox_domain_values.specs.Segments.{FitsOneSegment};

/// For each slice that is too long for the slots, a strategy determines one segment length or none. The slice fits into a slot of
/// that length, and a power of two is less than twice as long as the slice.
pub fn fits_one_segment()
    ensures { FitsOneSegment }
{}
