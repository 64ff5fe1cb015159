//! The options of a publisher and of a subscriber.
ghost use Rattle.std.specs.Prelude.{◌≡◌};
ghost use Rattle.iox_line.specs.Reading.{publisher_of, subscriber_of};

use crate::text::Words;
use crate::text::options::named_options;
use crate::text::value::{
    named_allocation, named_degradation, named_handler, named_number, named_strategy,
};
use iox_command::{PublisherOptions, SubscriberOptions};

/// The options of a publisher; `None` if a word isn't an option, or an option is named twice.
pub(crate) fn publisher_options(words: &Words) -> Option<PublisherOptions>
    ensures { result ≡ publisher_of words.now }
{
    named_options!(
        words,
        PublisherOptions {
            max_loaned_samples: named_number(b"loans="),
            backpressure_strategy: named_strategy(b"strategy="),
            preallocated_samples: named_number(b"slots="),
            initial_max_slice_len: named_number(b"slice="),
            allocation_strategy: named_allocation(b"alloc="),
            backpressure_handler: named_handler(b"handler="),
            degradation_handler: named_degradation(b"degrade="),
        }
    )
}

/// The options of a subscriber; `None` if a word isn't an option, or an option is named twice.
pub(crate) fn subscriber_options(words: &Words) -> Option<SubscriberOptions>
    ensures { result ≡ subscriber_of words.now }
{
    named_options!(
        words,
        SubscriberOptions {
            buffer_size: named_number(b"buffer="),
            degradation_handler: named_degradation(b"degrade="),
        }
    )
}
