//! The lengths of loans and segments, counted in elements.
ghost use Rattle.std.specs.Prelude.{◌≡◌, ◌≤◌, nat_le, true, Some, IfSome};
ghost use Rattle.iox_domain_ports.specs.Lengths.{span, extent, room_for, SegmentRoom};

use iox_domain_values::AllocationStrategy;

/// How many values these elements take memory for, if each has `unit` values. An element without values takes as much as one value,
/// so that lengths are counted for such elements, too.
///
/// Ported from `iceoryx2::service::static_config::message_type_details::MessageTypeDetails::sample_layout`, in values.
pub fn span(unit: usize, elements: u64) -> u128
    ensures { result ≡ span unit elements }
{
    elements as u128 * unit.max(1) as u128
}

// How many values a loan takes memory for.
fn extent(unit: usize, values: usize, elements: u64) -> u128
    ensures { result ≡ extent unit values elements }
{
    span(unit, elements).max(values as u128)
}

// Whether a loan of these values and elements fits into a slot with capacity for `room` values.
pub(crate) fn fits(unit: usize, values: usize, elements: u64, room: usize) -> bool
    ensures fits { result ≡ nat_le (extent unit values elements) room }
    ensures values { result ≡ true → values ≤ room }
{
    extent(unit, values, elements) <= room as u128
}

// How many values fit into a slot of the segment that is opened for a loan of these values and elements; None if no such segment may
// be opened.
pub(crate) fn segment_room(
    allocation: AllocationStrategy,
    unit: usize,
    values: usize,
    elements: u64,
) -> Option<usize>
    ensures room { SegmentRoom allocation unit values elements result }
    ensures fits { IfSome result (λ room. values ≤ room) }
{
    let length = allocation.segment_length(elements as usize)?;
    room_for(unit, values, length)
}

// How many values fit into a slot that is to hold `length` elements, and at least these values.
fn room_for(unit: usize, values: usize, length: usize) -> Option<usize>
    ensures room { result ≡ room_for unit values (Some length) }
    ensures fits { IfSome result (λ room. values ≤ room) }
{
    let room = extent(unit, values, length as u64);
    if room < 0x1_0000_0000 {
        Some(room as usize)
    } else {
        None
    }
}
