//! 100,000 numbers that pass from one thread to another.
use crate::answers::hold;
use crate::queues::ends::{Numbers, ends, shared, wide};
use iox_queues::{
    Consumer, FixedSizeIndexQueue, FixedSizeSafelyOverflowingIndexQueue as FixedOverflowing,
    IndexQueue, Producer, Queue, SafelyOverflowingIndexQueue as Overflowing, Share, Shared,
    UnrestrictedAtomic, Words,
};
use std::alloc::{AllocError, Global};
use std::thread;
use std::thread::Threads;

const COUNT: u64 = 100_000;

// A list of numbers: whether it rises, how many there are, and their sum.
#[derive(Clone, Copy)]
struct Rising {
    rises: bool,
    next: u64,
    count: u64,
    sum: u64,
}

const NONE: Rising = Rising {
    rises: true,
    next: 0,
    count: 0,
    sum: 0,
};

impl Rising {
    fn note(&mut self, value: u64) {
        self.rises = self.rises && self.next <= value;
        self.next = value.saturating_add(1);
        self.count = self.count.saturating_add(1);
        self.sum = self.sum.saturating_add(value);
    }

    // Whether both lists together have all numbers: each list rises, so no number is twice in one.
    fn is_all_with(&self, other: &Rising) -> bool {
        self.rises
            && other.rises
            && self.count.saturating_add(other.count) == COUNT
            && self.sum.saturating_add(other.sum) == COUNT * (COUNT - 1) / 2
    }
}

// Puts all numbers in, and repeats a put that is refused. The answer has the numbers that puts returned.
fn put_all<Q: Numbers>(producer: &mut Producer<'_, Q>) -> Rising {
    let mut out = NONE;
    let mut next = 0u64;
    for _ in 0..1_000_000_000u64 {
        if next == COUNT {
            break;
        }
        match Q::put(producer, next) {
            None => next = next.saturating_add(1),
            Some(left) if left == next => thread::yield_now(),
            Some(oldest) => {
                out.note(oldest);
                next = next.saturating_add(1);
            }
        }
    }
    out
}

// Takes numbers until the last one, which no put returns.
fn take_all<Q: Numbers>(consumer: &mut Consumer<'_, Q>) -> Rising {
    let mut got = NONE;
    for _ in 0..1_000_000_000u64 {
        if got.next == COUNT {
            break;
        }
        match Q::take_next(consumer) {
            Some(value) => got.note(value),
            None => thread::yield_now(),
        }
    }
    got
}

// Whether each number came out at one of the two ends, and each end returned its numbers in order.
fn none_is_lost<Q: Numbers + Send>(rt: &impl Threads, shared: &Shared<Q>) -> bool {
    let Some((mut producer, mut consumer)) = ends(shared) else {
        return false;
    };
    let (out, got) = thread::join(rt, || put_all(&mut producer), || take_all(&mut consumer));
    got.is_all_with(&out) && (Q::OVERFLOWS || out.count == 0)
}

fn goes<Q: Numbers + Send>(
    rt: &impl Threads,
    alloc: Global,
    queue: Result<Q, AllocError>,
) -> Result<bool, AllocError> {
    Ok(none_is_lost(rt, &shared(alloc, queue, 0)?))
}

// Stores one value for each number.
fn store_all(producer: &mut Producer<'_, UnrestrictedAtomic<u128>>) -> bool {
    for number in 0..COUNT {
        if let Some(value) = wide(number) {
            producer.store(value);
        }
    }
    true
}

// Whether each load is whole and never older than the one before, up to the last value.
fn load_all(shared: &Shared<UnrestrictedAtomic<u128>>) -> bool {
    let mut seen = 0u64;
    for _ in 0..1_000_000_000u64 {
        if let Some(value) = shared.load() {
            let number = value.word(0);
            if wide(number) != Some(value) || number < seen {
                return false;
            }
            seen = number;
            if seen == COUNT - 1 {
                return true;
            }
        }
    }
    false
}

// Whether all values were stored, and each load was whole.
fn is_loaded_whole(rt: &impl Threads, shared: &Shared<UnrestrictedAtomic<u128>>) -> bool {
    let Some(mut producer) = shared.acquire_producer() else {
        return false;
    };
    let (stored, loaded) = thread::join(rt, || store_all(&mut producer), || load_all(shared));
    stored && loaded
}

fn loads_whole(rt: &impl Threads, alloc: Global) -> Result<bool, AllocError> {
    match UnrestrictedAtomic::new(0u128).share(alloc) {
        Ok(shared) => Ok(is_loaded_whole(rt, &shared)),
        Err(_) => Err(AllocError),
    }
}

#[test]
fn no_number_is_lost_and_a_value_is_loaded_whole(rt: HostRuntime) {
    let alloc: Global = rt.alloc();
    let answers = [
        goes(&rt, alloc, IndexQueue::new(alloc, 64)),
        goes(&rt, alloc, FixedSizeIndexQueue::<64>::new(alloc)),
        goes(&rt, alloc, Queue::<u128, 64>::new(alloc)),
        goes(&rt, alloc, Overflowing::new(alloc, 8)),
        goes(&rt, alloc, FixedOverflowing::<8>::new(alloc)),
        loads_whole(&rt, alloc),
    ];
    hold(&rt, &answers);
}
