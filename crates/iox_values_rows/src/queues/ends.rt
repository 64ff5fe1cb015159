//! The ends of shared queues of numbers, by a trait.
use iox_queues::shared::SharedQueue;
use iox_queues::{
    Consumer, FixedSizeIndexQueue, FixedSizeSafelyOverflowingIndexQueue, IndexQueue, Producer,
    Queue, SafelyOverflowingIndexQueue, Share, Shared, Words,
};
use std::alloc::{AllocError, Global};

/// A queue of numbers.
pub(crate) trait Numbers: SharedQueue {
    /// Whether a full queue removes its oldest number and returns it; otherwise it refuses the new one.
    const OVERFLOWS: bool;

    /// The largest number that a value can state; a value without words states 0 for each number.
    const LARGEST: u64;

    /// Appends a number before the queue is shared.
    fn put_before(&mut self, value: u64);

    /// Appends a number; the answer is the number that isn't in the queue then, if there is one.
    fn put(producer: &mut Producer<'_, Self>, value: u64) -> Option<u64>;

    fn take_next(consumer: &mut Consumer<'_, Self>) -> Option<u64>;
}

impl Numbers for IndexQueue {
    const OVERFLOWS: bool = false;

    const LARGEST: u64 = u64::MAX;

    fn put_before(&mut self, value: u64) {
        let _ = self.push(value);
    }

    fn put(producer: &mut Producer<'_, Self>, value: u64) -> Option<u64> {
        (!producer.push(value)).then_some(value)
    }

    fn take_next(consumer: &mut Consumer<'_, Self>) -> Option<u64> {
        consumer.pop()
    }
}

impl<const CAPACITY: usize> Numbers for FixedSizeIndexQueue<CAPACITY> {
    const OVERFLOWS: bool = false;

    const LARGEST: u64 = u64::MAX;

    fn put_before(&mut self, value: u64) {
        let _ = self.push(value);
    }

    fn put(producer: &mut Producer<'_, Self>, value: u64) -> Option<u64> {
        (!producer.push(value)).then_some(value)
    }

    fn take_next(consumer: &mut Consumer<'_, Self>) -> Option<u64> {
        consumer.pop()
    }
}

/// The value whose words are made of this number, all of them different; None if it has more than sixteen words.
pub(crate) fn wide<T: Words>(number: u64) -> Option<T> {
    let mut words = [number; 16];
    for (place, word) in words.iter_mut().enumerate() {
        *word = number.saturating_add((place as u64) << 33);
    }
    words[T::WORDS.saturating_sub(1).min(15)] = number << 40;
    match words.get(..T::WORDS) {
        Some(words) => Some(T::of_words(words)),
        None => None,
    }
}

impl<T: Words + PartialEq, const CAPACITY: usize> Numbers for Queue<T, CAPACITY> {
    const OVERFLOWS: bool = false;

    const LARGEST: u64 = if T::WORDS == 0 { 0 } else { u64::MAX };

    fn put_before(&mut self, value: u64) {
        if let Some(value) = wide(value) {
            let _ = self.push(&value);
        }
    }

    fn put(producer: &mut Producer<'_, Self>, value: u64) -> Option<u64> {
        match wide::<T>(value) {
            Some(wide) if producer.push(&wide) => None,
            _ => Some(value),
        }
    }

    fn take_next(consumer: &mut Consumer<'_, Self>) -> Option<u64> {
        let value = consumer.pop()?;
        let number = value.word(0);
        (wide(number) == Some(value)).then_some(number)
    }
}

impl Numbers for SafelyOverflowingIndexQueue {
    const OVERFLOWS: bool = true;

    const LARGEST: u64 = u64::MAX;

    fn put_before(&mut self, value: u64) {
        let _ = self.push(value);
    }

    fn put(producer: &mut Producer<'_, Self>, value: u64) -> Option<u64> {
        producer.push(value)
    }

    fn take_next(consumer: &mut Consumer<'_, Self>) -> Option<u64> {
        consumer.pop()
    }
}

impl<const CAPACITY: usize> Numbers for FixedSizeSafelyOverflowingIndexQueue<CAPACITY> {
    const OVERFLOWS: bool = true;

    const LARGEST: u64 = u64::MAX;

    fn put_before(&mut self, value: u64) {
        let _ = self.push(value);
    }

    fn put(producer: &mut Producer<'_, Self>, value: u64) -> Option<u64> {
        producer.push(value)
    }

    fn take_next(consumer: &mut Consumer<'_, Self>) -> Option<u64> {
        consumer.pop()
    }
}

/// A number for each of those from 0 on: 0 for 0, and for the others numbers above 2^33, no two of which have the same low half.
pub(crate) fn spread(value: u64) -> u64 {
    value.saturating_mul((1 << 33) + 1)
}

/// The queue in which the first `waiting` of these numbers wait, after it was shared.
pub(crate) fn shared<Q: Numbers>(
    alloc: Global,
    queue: Result<Q, AllocError>,
    waiting: u64,
) -> Result<Shared<Q>, AllocError> {
    let mut queue = queue?;
    for value in 0..waiting {
        queue.put_before(spread(value));
    }
    queue.share(alloc).ok().ok_or(AllocError)
}

/// Both ends of a shared queue, if neither is held.
pub(crate) fn ends<Q: SharedQueue>(
    shared: &Shared<Q>,
) -> Option<(Producer<'_, Q>, Consumer<'_, Q>)> {
    shared.acquire_producer().zip(shared.acquire_consumer())
}
