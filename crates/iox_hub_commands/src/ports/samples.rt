//! How samples are read and released, and their sequence numbers reported.
ghost use Rattle.iox_domain.specs.Homes as homes;
ghost use Rattle.std.specs.Prelude.{◌≡◌, option_copied};
ghost use Rattle.iox_container.specs.NumberTable.{value_at};
ghost use Rattle.iox_hub_commands.specs.Numbering.{removed_if};
ghost use Rattle.iox_hub_commands.specs.Reading.{values_under, sequence_under, is_held, ReleasesUnder};
ghost use Rattle.iox_hub_commands.specs.Tables.{without_sample};

use crate::ports::made::Made;
use iox_delivery::subscribing;
use iox_domain::{Home, calls};

impl Made {
    /// The values of a sample that is held. None if the number has no sample, or the sample's domain isn't in the home.
    pub fn read<'a, T: Copy, U: Copy, H: Home<T, U>>(
        &self,
        home: &'a H,
        sample: u64,
    ) -> Option<&'a [T]>
    where
        T: 'a,
        U: 'a,
        ensures { option_copied result ≡ values_under (homes.ports_of H.domain_of) (value_at self.now.samples sample) home.now }
    {
        let held = self.samples.get(sample).copied()?;
        calls::ports(home, held.port.domain)?.payload(held.taken)
    }

    /// The sequence number of a sample's message; the inner value is none if the service doesn't number messages. None if the number has no
    /// sample, or the sample's domain isn't in the home.
    #[tactic(auto, using(crate::proofs::Sequences::header_sequence))]
    pub fn sequence<T: Copy, U: Copy, H: Home<T, U>>(
        &self,
        home: &H,
        sample: u64,
    ) -> Option<Option<u64>>
        ensures { result ≡ sequence_under (homes.ports_of H.domain_of) (value_at self.now.samples sample) home.now }
    {
        let held = self.samples.get(sample).copied()?;
        let ports = calls::ports(home, held.port.domain)?;
        Some(ports.header(held.taken)?.sequence)
    }

    /// Releases a sample, whose number names nothing any longer. Answers false, and nothing happens, if the number has no sample, or the
    /// sample's domain isn't in the home.
    pub fn release<T: Copy, U: Copy, H: Home<T, U>>(&mut self, home: &mut H, sample: u64) -> bool
        ensures answer { result ≡ is_held (homes.ports_of H.domain_of) (value_at self.old.samples sample) home.old }
        ensures home { ReleasesUnder (homes.ports_of H.domain_of) (homes.with_ports H.changed) (value_at self.old.samples sample)
            home.old result home.new }
        ensures number { self.new ≡ removed_if result (without_sample sample) self.old }
    {
        let Some(held) = self.samples.get(sample).copied() else {
            return false;
        };
        if !subscribing::drop_sample(held.port, held.taken, home) {
            return false;
        }
        self.samples.remove(sample);
        true
    }
}
