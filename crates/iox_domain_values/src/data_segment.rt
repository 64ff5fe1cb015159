//! How the slots of a publisher grow.
ghost use Rattle.std.specs.Prelude.{◌≡◌};
ghost use Rattle.iox_domain_values.specs.Segments.{SegmentLength};
ghost use Rattle.iox_domain_values.specs.declared.data_segment.AllocationStrategy.TheVariants as strategy;

/// Whether the slots of a publisher may grow.
///
/// Ported from `iceoryx2::port::DataSegmentType`.
#[derive(Clone, Copy, Debug, PartialEq, Eq)]
pub enum DataSegmentType {
    /// A slice that is too long for the slots may open a new segment.
    Dynamic,
    /// The slots stay as long as they were made.
    Static,
}

/// What the loan of a slice that is too long for the slots does.
///
/// Ported from `iceoryx2_cal::shm_allocator::AllocationStrategy`.
#[derive(Clone, Copy, Debug, PartialEq, Eq)]
pub enum AllocationStrategy {
    /// The loan opens a segment with slots of just that length.
    BestFit,
    /// The loan opens a segment with slots of the next power of two.
    PowerOfTwo,
    /// The loan is refused.
    Static,
}

/// The strategy of a publisher for which none is set.
impl Default for AllocationStrategy {
    ghost is_default = { λ made. made ≡ strategy.Static };

    fn default() -> Self {
        AllocationStrategy::Static
    }
}

impl AllocationStrategy {
    /// How many values fit into a slot of the segment that a slice of `values` values opens, if it is too long for the slots so
    /// far. None if no segment is opened: with `Static`, and for a length above 2^32 - 1.
    ///
    /// Ported from `iceoryx2_cal::shm_allocator::ShmAllocator::resize_hint`; the lengths are chosen differently here.
    pub fn segment_length(&self, values: usize) -> Option<usize>
        ensures { SegmentLength self.now values result }
    {
        match self {
            AllocationStrategy::BestFit => exactly(values),
            AllocationStrategy::PowerOfTwo => next_power_of_two(values),
            AllocationStrategy::Static => None,
        }
    }
}

// Just this length, if a segment may have it.
fn exactly(values: usize) -> Option<usize>
    ensures { SegmentLength strategy.BestFit values result }
{
    if values < 0x1_0000_0000 {
        Some(values)
    } else {
        None
    }
}

// The next power of two, if a segment may have that length.
fn next_power_of_two(values: usize) -> Option<usize>
    ensures { SegmentLength strategy.PowerOfTwo values result }
{
    if values <= 0x8000_0000 {
        Some(values.next_power_of_two())
    } else {
        None
    }
}
