//! What `Display` and `Debug` show of values.
use crate::answers::{hold, is_shown};
use crate::containers::semantic;
use iox_container::byte_cells::{ByteAnswer, ByteStep};
use iox_container::string::{PolymorphicString, StaticString, String};
use iox_container::vector::Vector;
use iox_container::{
    FixedSizeFlatMap, FixedSizeQueue, FixedSizeSlotMap, PolymorphicVec, SlotMapKey, StaticVec,
};
use std::alloc::{AllocError, Global};
use std::fmt::{Debug, Display};

/// Whether `Display` shows a string of `a"`, a newline and byte 127 in a width of six, aligned to the right and to the left, and
/// `Debug` shows it as a literal.
fn is_printed<S: String + Display + Debug>(
    alloc: Global,
    text: &mut S,
) -> Result<bool, AllocError> {
    let _ = text.push_bytes(b"a\"\n\x7f");
    let told = format!(in alloc; "[{text:>6}] [{text:<6}] {text:?}")?;
    Ok(told.as_str() == "[  a\"\n\x7f] [a\"\n\x7f  ] \"a\\\"\\n\\u{7f}\"")
}

fn string(alloc: Global) -> Result<bool, AllocError> {
    is_printed(alloc, &mut PolymorphicString::new(alloc, 9)?)
}

/// Whether `Debug` shows a vector of two places as its items, after they were added.
fn is_listed<V: Vector<u8> + Debug + Drop>(
    alloc: Global,
    made: Result<V, AllocError>,
) -> Result<bool, AllocError> {
    match made {
        Ok(mut vec) => {
            let _ = (vec.push(5), vec.push(7));
            is_shown(alloc, &vec, "[5, 7]")
        }
        Err(error) => Err(error),
    }
}

fn queue(alloc: Global) -> Result<bool, AllocError> {
    let mut queue = FixedSizeQueue::<u8, 2>::new(alloc)?;
    let _ = (queue.push(5), queue.push(7));
    is_shown(alloc, &queue, "[5, 7]")
}

fn slot_map(alloc: Global) -> Result<bool, AllocError> {
    let mut map = FixedSizeSlotMap::<u8, 4>::new(alloc)?;
    let _ = map.insert_at(SlotMapKey::new(2), 7);
    let _ = map.insert(9);
    is_shown(alloc, &map, "{0: 9, 2: 7}")
}

fn flat_map(alloc: Global) -> Result<bool, AllocError> {
    let mut map = FixedSizeFlatMap::<u8, u8, 4>::new(alloc)?;
    let _ = (map.insert(9, 90), map.insert(8, 80));
    is_shown(alloc, &map, "{9: 90, 8: 80}")
}

const STEPS: [ByteStep; 2] = [ByteStep::Load(1), ByteStep::Store(1, 5)];

const ANSWERS: [ByteAnswer; 3] = [
    ByteAnswer::Stored,
    ByteAnswer::Loaded(5),
    ByteAnswer::Skipped,
];

#[test]
fn a_value_prints_as_what_it_holds(rt: HostRuntime) {
    let alloc: Global = rt.alloc();
    let answers = [
        is_printed(alloc, &mut StaticString::<9>::new()),
        string(alloc),
        is_listed(alloc, StaticVec::<u8, 2>::new(alloc)),
        is_listed(alloc, PolymorphicVec::new(alloc, 2)),
        queue(alloc),
        slot_map(alloc),
        flat_map(alloc),
        semantic::is_copied(alloc),
        is_shown(alloc, &SlotMapKey::new(3), "SlotMapKey { value: 3 }"),
        is_shown(alloc, &STEPS, "[Load(1), Store(1, 5)]"),
        is_shown(alloc, &ANSWERS, "[Stored, Loaded(5), Skipped]"),
    ];
    hold(&rt, &answers);
}
