//! What a send answers, and a blocked send.
ghost use Rattle.iox_domain.specs.Homes as homes;
ghost use Rattle.std.specs.Prelude.{◌≡◌, true, IfErr};
ghost use Rattle.std.specs.Result.{result_ok};
ghost use Rattle.iox_delivery.specs.Holding.{publisher_blocked};
ghost use Rattle.iox_delivery.specs.Publishing.{sent_of, RetriesSend, GivesUpSend, EndsSend};

use crate::port_id::PortId;
use crate::publishing;
use iox_domain::{Home, calls};
use iox_domain_ports::Sent as Sending;
use iox_domain_values::SendError;
use std::marker::PhantomData;

/// What a send answers.
///
/// Ported from what `iceoryx2::sample_mut::SampleMut::send` answers; there the call blocks its caller at a full mailbox.
pub enum Sent<T, U> {
    /// The send is finished; the number says how many connections took the message.
    Delivered(usize),
    /// The send is blocked at a full mailbox.
    Blocked(BlockedSend<T, U>),
}

/// A send that is blocked at a full mailbox, until it is tried again or given up. Until then its publisher can't loan, send or
/// update.
///
/// Not in `iceoryx2`: `iceoryx2::port::publisher::Publisher::send` blocks its caller.
pub struct BlockedSend<T, U> {
    port: PortId,
    of: PhantomData<(T, U)>,
}

impl<T: Copy, U: Copy> BlockedSend<T, U> {
    /// Whether the send is blocked in this home, which its calls require.
    /// Example: `let waits = blocked.holds(home);`
    pub fn holds<H: Home<T, U>>(&self, home: &H) -> bool
        ensures { result ≡ publisher_blocked self.now.port.number (homes.ports_of H.domain_of self.now.port.domain home.now) }
    {
        publishing::is_blocked(self.port, home)
    }

    /// Tries once more the mailbox at which the send is blocked, `elapsed_ns` nanoseconds after it was first found full, and
    /// continues; the call answers as the send did. The count of retries at the mailbox is one higher.
    ///
    /// Not in `iceoryx2`.
    /// Example: `let sent = blocked.retry(home, 1_000)?;`
    pub fn retry<H: Home<T, U>>(
        self,
        home: &mut H,
        elapsed_ns: u64,
    ) -> Result<Sent<T, U>, SendError>
        requires { publisher_blocked self.port.number (homes.ports_of H.domain_of self.port.domain home.old) ≡ true }
        ensures { RetriesSend (homes.ports_of H.domain_of) (homes.with_ports H.changed)
            (homes.publisher_decides (λ kept. H.ForPublishers.decides kept) H.domain_of) self.port elapsed_ns home.old result home.new }
    {
        let BlockedSend { port, of: _ } = self;
        match calls::retry(home, port.domain, port.number, elapsed_ns) {
            Some(sent) => sent_of(port, sent),
            None => unreachable!(),
        }
    }

    /// The id of the port whose send is blocked. The send stays blocked: nothing can try it again or give it up any longer.
    ///
    /// Not in `iceoryx2`.
    /// Example: `let port = blocked.into_port();`
    pub fn into_port(self) -> PortId
        ensures { result ≡ self.port }
    {
        let BlockedSend { port, of: _ } = self;
        port
    }

    /// Drops the send: it is given up as by `give_up`, if it is blocked in this home, and the call answers how many connections
    /// took the message. Otherwise nothing happens, and the send is returned, so that it can be given up in its own home, or
    /// forgotten by `into_port`.
    ///
    /// Not in `iceoryx2`.
    /// Example: `if let Err(kept) = blocked.drop_with(home) { .. }`
    pub fn drop_with<H: Home<T, U>>(self, home: &mut H) -> Result<usize, Self>
        ensures ends { EndsSend (homes.ports_of H.domain_of) (homes.with_ports H.changed) self.port home.old (result_ok result)
            home.new }
        ensures given_back { IfErr result (λ kept. kept ≡ self) }
    {
        match give_up_if_blocked(self.port, home) {
            Some(delivered) => {
                let _ = self.into_port();
                Ok(delivered)
            }
            None => Err(self),
        }
    }

    /// Gives up the send, and answers how many connections took the message.
    ///
    /// Not in `iceoryx2`.
    /// Example: `let delivered = blocked.give_up(home);`
    pub fn give_up<H: Home<T, U>>(self, home: &mut H) -> usize
        requires { publisher_blocked self.port.number (homes.ports_of H.domain_of self.port.domain home.old) ≡ true }
        ensures { GivesUpSend (homes.ports_of H.domain_of) (homes.with_ports H.changed) self.port home.old result home.new }
    {
        let BlockedSend { port, of: _ } = self;
        let Some(ports) = calls::ports_mut(home, port.domain) else {
            unreachable!();
        };
        match ports.give_up(port.number) {
            Some(delivered) => delivered,
            None => unreachable!(),
        }
    }
}

// Gives up the blocked send of a publisher, and answers how many connections took the message; None if no send of it is blocked.
fn give_up_if_blocked<T: Copy, U: Copy, H: Home<T, U>>(port: PortId, home: &mut H) -> Option<usize>
    ensures { EndsSend (homes.ports_of H.domain_of) (homes.with_ports H.changed) port home.old result home.new }
{
    calls::ports_mut(home, port.domain)?.give_up(port.number)
}

// The answer of a send, with a blocked send as a value.
pub(crate) fn sent_of<T, U>(
    port: PortId,
    sent: Result<Sending, SendError>,
) -> Result<Sent<T, U>, SendError>
    ensures { result ≡ sent_of port sent }
{
    match sent? {
        Sending::Delivered(delivered) => Ok(Sent::Delivered(delivered)),
        Sending::Blocked => Ok(Sent::Blocked(BlockedSend {
            port,
            of: PhantomData,
        })),
    }
}
