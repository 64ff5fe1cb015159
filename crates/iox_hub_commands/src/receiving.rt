//! The command that receives, over the tables of numbers and any home.
ghost use Rattle.iox_domain.specs.Homes as homes;
ghost use Rattle.std.specs.Prelude.{◌≡◌, ◌+◌, ◌<◌, ◌^◌, length, IsSome, None, Some, Ok, OnErr};
ghost use Rattle.iox_command.specs.declared.reply.Reply.TheVariants as reply;
ghost use Rattle.iox_hub_commands.specs.Receiving.{IsHeldIn, IsShown, RepliesTo, ReceivesAt, ReceiveStep, values_held};
ghost use Rattle.iox_delivery.specs.Container.NumberTable.{value_at};

use crate::messages::copied;
use crate::ports::growing::room_for_one;
use crate::ports::{Made, MadeSample};
use iox_command::{Refusal, Reply};
use iox_container::by_number::Numbered;
use iox_delivery::PortId;
use iox_domain::{Home, ServicePorts};
use iox_domain_ports::Taken;
use iox_domain_values::ReceiveError;
use std::alloc::{AllocError, Global};

/// Receives by a subscriber, after an update; a received sample gets the next number, and the reply has its values. Skipped if
/// `Made::receive` answers None, and refused as it refuses it.
///
/// Fails if the table of samples is full and memory runs out for one more number, and then nothing has changed; and if memory runs out for
/// the values of a received sample that has some, which is then held under its number. Whatever memory there is, the command is skipped if
/// the number has no subscriber.
/// Example: `let reply = receive(alloc, &mut made, &mut home, subscriber)?;`
pub fn receive<T: Copy, U: Copy, H: Home<T, U>>(
    alloc: Global,
    made: &mut Made,
    home: &mut H,
    subscriber: u64,
) -> Result<Reply<T>, AllocError>
    requires { made.old.samples.next + 1 < 2 ^ 64 }
    ensures receives { ReceiveStep (homes.ports_of H.domain_of) (homes.with_ports H.changed)
        (homes.subscriber_degrades (λ kept. H.ForSubscribers.degrades kept) H.domain_of) subscriber made.old home.old result made.new
        home.new }
    ensures skips { value_at made.old.subscribers subscriber ≡ None → result ≡ Ok reply.Skipped }
    ensures lacks { OnErr result (IsSome (value_at made.old.subscribers subscriber)) }
{
    let Some(port) = made.subscriber(subscriber) else {
        return Ok(Reply::Skipped);
    };
    room_for_one(&mut made.samples)?;
    receive_at(alloc, &mut made.samples, home, port)
}

// Receives at a port, and replies. The domain is looked up once, for the values of a received sample, too.
fn receive_at<T: Copy, U: Copy, H: Home<T, U>>(
    alloc: Global,
    samples: &mut Numbered<MadeSample>,
    home: &mut H,
    port: PortId,
) -> Result<Reply<T>, AllocError>
    requires room { length samples.old.entries < samples.old.room }
    requires number { samples.old.next + 1 < 2 ^ 64 }
    ensures { ReceivesAt (homes.ports_of H.domain_of) (homes.with_ports H.changed)
        (homes.subscriber_degrades (λ kept. H.ForSubscribers.degrades kept) H.domain_of) port samples.old home.old result samples.new
        home.new }
{
    let Some(place) = home.place(port.domain) else {
        return Ok(Reply::Skipped);
    };
    let domain = home.domain_mut_at(port.domain, place);
    let received = domain.receive(alloc, port.number);
    reply_to(alloc, received, port, &domain.ports, samples)
}

// The reply to what a port received. A received sample gets the next number.
fn reply_to<T: Copy, U: Copy>(
    alloc: Global,
    received: Option<Result<Option<Taken>, ReceiveError>>,
    port: PortId,
    ports: &ServicePorts<T, U>,
    samples: &mut Numbered<MadeSample>,
) -> Result<Reply<T>, AllocError>
    requires held { IsHeldIn (Some ports.now) received }
    requires room { length samples.old.entries < samples.old.room }
    requires number { samples.old.next + 1 < 2 ^ 64 }
    ensures { RepliesTo port (Some ports.now) received samples.old result samples.new }
{
    match received {
        None => Ok(Reply::Skipped),
        Some(Err(error)) => Ok(Reply::Refused(Refusal::Receive(error))),
        Some(Ok(None)) => Ok(Reply::NothingWaits),
        Some(Ok(Some(taken))) => {
            let sample = samples.next_number();
            samples.insert_next(MadeSample { port, taken });
            arrival(alloc, ports, taken, sample)
        }
    }
}

// The reply to a received sample that is held: its number, and its values. Fails only if it has values and memory runs out for them.
fn arrival<T: Copy, U: Copy>(
    alloc: Global,
    ports: &ServicePorts<T, U>,
    taken: Taken,
    sample: u64,
) -> Result<Reply<T>, AllocError>
    requires { IsSome (values_held taken (Some ports.now)) }
    ensures { IsShown sample (values_held taken (Some ports.now)) result }
{
    let Some(values) = ports.payload(taken) else {
        unreachable!();
    };
    Ok(Reply::Received {
        sample,
        values: copied(alloc, values)?,
    })
}
