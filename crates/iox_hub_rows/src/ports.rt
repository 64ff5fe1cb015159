//! Ports in any home: the conditions that must hold before their calls, and the results of these.
ghost use Rattle.std.specs.Prelude.{◌≡◌, false, true};

use iox_delivery::Sent;
use iox_delivery::loan::{Loan, LoanState};
use iox_delivery::slices::{Publisher, Sample, Subscriber};
use iox_delivery_factories::slices::{PortFactoryPublisher, PortFactorySubscriber};
use iox_domain::Home;
use iox_domain_values::{Decides, Degrades, Overrides, SendError};
use std::alloc::Global;
use std::process::Abort;

/// Aborts unless the port, loan or sample that a call needs exists.
pub(crate) fn must_be_there(rt: &impl Abort, holds: bool)
    ensures { holds ≡ true }
{
    assert!(rt; holds);
}

/// Aborts unless the publisher or loan exists, and no send of the publisher is blocked.
pub(crate) fn must_be_free(rt: &impl Abort, holds: bool, is_blocked: bool)
    ensures there { holds ≡ true }
    ensures free { is_blocked ≡ false }
{
    assert!(rt; holds);
    assert!(rt; !is_blocked);
}

/// A publisher and a subscriber of slices, made by these builders. The subscriber is made first.
pub(crate) fn meet<
    T: Copy,
    U: Copy + Default,
    B: Decides + Degrades,
    O: Overrides,
    D: Degrades,
    H: Home<T, U, ForPublishers = B, ForSubscribers = D>,
>(
    rt: &impl Abort,
    alloc: Global,
    home: &mut H,
    publishers: PortFactoryPublisher<T, U, B, O>,
    subscribers: PortFactorySubscriber<T, U, D>,
) -> Option<(Publisher<T, U>, Subscriber<T, U>)> {
    must_be_there(rt, subscribers.holds(home));
    let subscriber = subscribers.create_slice(alloc, home).ok();
    must_be_there(rt, publishers.holds(home));
    let publisher = publishers.create_slice(alloc, home).ok();
    Some((publisher?, subscriber?))
}

/// How many mailboxes took the message, or why none did. A blocked send is given up, and counts as one that couldn't deliver.
pub(crate) fn sent_to<T: Copy, U: Copy, H: Home<T, U>>(
    sent: Result<Sent<T, U>, SendError>,
    home: &mut H,
) -> Result<usize, SendError> {
    match sent {
        Ok(Sent::Delivered(delivered)) => Ok(delivered),
        Ok(Sent::Blocked(blocked)) => match blocked.drop_with(home) {
            Ok(_) => Err(SendError::UnableToDeliver),
            Err(kept) => {
                let _ = kept.into_port();
                Err(SendError::InternalError)
            }
        },
        Err(error) => Err(error),
    }
}

/// Drops a loan, and returns whether it existed.
pub(crate) fn is_given_up<T: Copy, U: Copy, K, S: LoanState<T, U, K> + Copy, H: Home<T, U>>(
    loan: Loan<T, U, K, S>,
    home: &mut H,
) -> bool {
    match loan.drop_with(home) {
        Ok(()) => true,
        Err(kept) => {
            let _ = kept.into_slot();
            false
        }
    }
}

/// Of a received message: how many elements and how many values it has, its last value, and its sequence number.
pub(crate) type Came<T> = (u64, usize, Option<T>, Option<u64>);

/// What a sample contains. The sample is released.
pub(crate) fn taken<T: Copy, U: Copy, H: Home<T, U>>(
    rt: &impl Abort,
    home: &mut H,
    sample: Sample<T, U>,
) -> Came<T> {
    must_be_there(rt, sample.holds(home));
    let values = sample.payload(home);
    let header = sample.header(home);
    let came = (
        header.number_of_elements,
        values.len(),
        values.last().copied(),
        header.sequence(),
    );
    sample.release(home);
    came
}
