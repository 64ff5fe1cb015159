//! What is read of a sample. A sample can be read until it is released, also if its publisher and its subscriber are closed.
ghost use Rattle.std.specs.Prelude.{◌≡◌, option_copied, option_map};
ghost use Rattle.iox_domain.specs.Reading.{sample_in, header_in};

use crate::ports::service_ports::ServicePorts;
use iox_describe_base::Header;
use iox_domain_ports::Taken;
use iox_domain_ports::reading::{elements_at, payload_at, sequence_at, user_header_at};

impl<T: Copy, U: Copy> ServicePorts<T, U> {
    /// The values of a held sample, as they were when it was sent; None if no such sample is held.
    ///
    /// Ported from `iceoryx2::sample::Sample::payload`.
    pub fn payload(&self, sample: Taken) -> Option<&[T]>
        ensures { option_copied result ≡ option_map (λ message. message.values) (sample_in sample self.now) }
    {
        match self.publishers.get(sample.publisher) {
            Some(port) => payload_at(port, sample.index, sample.slot),
            None => None,
        }
    }

    /// The user header of a held sample, as it was when it was sent; None if no such sample is held.
    ///
    /// Ported from `iceoryx2::sample::Sample::user_header`.
    pub fn user_header(&self, sample: Taken) -> Option<&U>
        ensures { option_copied result ≡ option_map (λ message. message.user_header) (sample_in sample self.now) }
    {
        match self.publishers.get(sample.publisher) {
            Some(port) => user_header_at(port, sample.index, sample.slot),
            None => None,
        }
    }

    /// What the header of a held sample says, with the sequence number of its message if the service numbers messages; None if
    /// no such sample is held.
    ///
    /// Ported from `iceoryx2::sample::Sample::header`.
    pub fn header(&self, sample: Taken) -> Option<Header>
        ensures { result ≡ header_in sample self.now }
    {
        let port = self.publishers.get(sample.publisher)?;
        let elements = elements_at(port, sample.index, sample.slot)?;
        let sequence = sequence_at(port, sample.index, sample.slot)?;
        Some(Header {
            node_id: port.owner.node_id,
            publisher_id: port.number,
            number_of_elements: elements,
            sequence,
        })
    }
}
