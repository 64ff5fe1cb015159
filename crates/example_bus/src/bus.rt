//! What a node of the bus does: it advertises or listens in a service, publishes and hears.
ghost use Rattle.iox_hub.specs.Domain.Homes as homes;
ghost use Rattle.std.specs.Prelude.{◌≡◌, ℕ, Option, true, Some, Ok, IfOk, codes, option_map};
ghost use Rattle.iox_hub.specs.Delivery.Holding.{holds_message, message_found};
ghost use Rattle.iox_hub.specs.Delivery.Subscribing.{ReceivesSample};
ghost use Rattle.iox_hub.specs.Delivery.declared.kind.Slice.{Slice as OfSlices};
ghost use Rattle.iox_hub.specs.Delivery.declared.sample.Sample.{Sample as Received};
ghost use Rattle.iox_hub_commands.specs.Command.declared.command.Command.TheVariants as command;
ghost use Rattle.iox_hub_commands.specs.Command.declared.port.PortNumber.TheVariants as port_number;
ghost use Rattle.iox_hub_commands.specs.Command.declared.reply.Reply.TheVariants as reply;
ghost use Rattle.iox_hub_commands.specs.Container.NumberTable.{value_at};
ghost use Rattle.iox_hub_commands.specs.Tables.{port_under};
ghost use Rattle.iox_hub_commands.specs.declared.numbered_hub.NumberedHub.{NumberedHub};
ghost use Rattle.example_bus.specs.Heard.{as_heard, as_sent, HearsBySteps, IsHeard, LetsGo};
ghost use Rattle.example_bus.specs.Steps.{IsBusStep, bus_terms};

use anyhow::{Context, Result, bail, ensure};
use iox_delivery::kind;
use iox_hub::prelude::*;
use iox_hub_machine::typed::{typed_publisher_calls_are_steps, typed_subscriber_calls_are_steps};
use std::alloc::AllocError;

/// All nodes and services of the robot. Messages are slices of numbers, and each has a time stamp as its user header. Ports have no
/// handlers: a full mailbox drops its oldest message. One bus has one type of values: a second type takes a second bus.
pub type Bus<T = u64> = Hub<T, u64, Nobody, Nobody>;

/// The message that a node heard.
#[derive(Drop)]
pub struct Heard {
    /// The time stamp of the message.
    pub stamp: u64,
    /// The values of the message.
    pub values: Vec<u64>,
}

/// A node opens the service of a name, or creates it: at most four messages wait for a subscriber, and a late subscriber gets the last two.
fn join<T: Words + ZeroCopySend>(
    alloc: Global,
    bus: &mut Bus<T>,
    node: &NodeHandle,
    name: &[u8],
) -> Result<PortFactory<PublishSubscribe>> {
    ensure!(bus.holds_node(node), "a node of another bus");
    let asked = bus
        .service_builder(node, ServiceName::new(name)?)
        .publish_subscribe::<Slice<T>>()
        .user_header::<u64>()
        .history_size(2)
        .subscriber_max_buffer_size(4);
    Ok(asked.open_or_create_in(alloc, bus, Vec::new(alloc))?)
}

/// Creates a publisher of messages of at most this many values.
pub fn advertise<T: Words + ZeroCopySend>(
    alloc: Global,
    bus: &mut Bus<T>,
    node: &NodeHandle,
    name: &[u8],
    values: usize,
) -> Result<PortId> {
    let service = join(alloc, bus, node, name)?;
    make_publisher(alloc, bus, &service, values)
}

fn make_publisher<T: Copy + ZeroCopySend>(
    alloc: Global,
    bus: &mut Bus<T>,
    service: &PortFactory<PublishSubscribe>,
    values: usize,
) -> Result<PortId> {
    ensure!(bus.holds(service), "a service of another bus");
    let builder = bus
        .slice_publisher_builder(service)
        .context("the service has single values, or is out of its hub")?
        .initial_max_slice_len(values)
        .max_loaned_samples(1)
        .set_handlers(Nobody);
    ensure!(builder.holds(bus), "no service");
    Ok(builder.create_slice(alloc, bus)?.into_port())
}

/// Creates a subscriber.
pub fn listen<T: Words + ZeroCopySend>(
    alloc: Global,
    bus: &mut Bus<T>,
    node: &NodeHandle,
    name: &[u8],
) -> Result<PortId> {
    let service = join(alloc, bus, node, name)?;
    make_subscriber(alloc, bus, &service)
}

fn make_subscriber<T: Copy + ZeroCopySend>(
    alloc: Global,
    bus: &mut Bus<T>,
    service: &PortFactory<PublishSubscribe>,
) -> Result<PortId> {
    ensure!(bus.holds(service), "a service of another bus");
    let builder = bus
        .slice_subscriber_builder(service)
        .context("the service has single values, or is out of its hub")?
        .set_handler(Nobody);
    ensure!(builder.holds(bus), "no service");
    Ok(builder.create_slice(alloc, bus)?.into_port())
}

/// Updates the connections of a publisher: new subscribers get its last messages. In the machine's terms this is the command `Update`,
/// by any number that the publisher has.
pub fn follow<T: Copy + ZeroCopySend + Default>(
    alloc: Global,
    bus: &mut Bus<T>,
    port: PortId,
) -> Result<()>
    ensures { IfOk result (λ done. (held : NumberedHub T ℕ Nobody Nobody) (number : ℕ)
        → port_under (value_at held.made.publishers number) ≡ Some port
        → IsBusStep (bus_terms T.name T.size T.alignment T.is_default) (command.Update (port_number.Publisher number))
        (record held { hub = bus.old }) reply.Done (record held { hub = bus.new })) }
{
    typed_publisher_calls_are_steps::<T, u64, kind::Slice, Nobody, Nobody>();
    let publisher = slice::Publisher::of_port(
        port,
        BackpressureStrategy::DiscardData,
        0,
        TypeVariant::Dynamic,
    );
    if !publisher.holds(bus) || publisher.is_blocked(bus) {
        bail!("no publisher");
    }
    Ok(publisher.update_connections(alloc, bus)?)
}

/// A message of these values with a time stamp, which is still to be sent.
fn write<T: Copy, H: Home<T, u64>>(
    alloc: Global,
    home: &mut H,
    port: PortId,
    stamp: u64,
    values: &[T],
) -> Result<slice::SampleMut<T, u64>> {
    let publisher = slice::Publisher::of_port(
        port,
        BackpressureStrategy::DiscardData,
        values.len(),
        TypeVariant::Dynamic,
    );
    if !publisher.holds(home) || publisher.is_blocked(home) {
        bail!("no publisher");
    }
    let mut loan = publisher.loan_slice_uninit(alloc, home, values.len())?;
    loan.user_header_write(home, stamp);
    Ok(loan.write_from_slice(home, values))
}

/// Sends a message, and returns how many subscribers got it.
fn send<T: Copy, H: Home<T, u64>>(
    alloc: Global,
    home: &mut H,
    sample: slice::SampleMut<T, u64>,
) -> Result<usize> {
    if !sample.holds(home) || sample.is_blocked(home) {
        if let Err(kept) = sample.drop_with(home) {
            let _ = kept.into_slot();
        }
        bail!("no loan");
    }
    match sample.send(alloc, home)? {
        Sent::Delivered(subscribers) => Ok(subscribers),
        Sent::Blocked(waiting) => match waiting.drop_with(home) {
            Ok(subscribers) => Ok(subscribers),
            Err(kept) => bail!("port {} sends nothing", kept.into_port().number),
        },
    }
}

/// Sends these values with a time stamp, and returns how many subscribers got them.
pub fn publish<T: Copy>(
    alloc: Global,
    bus: &mut Bus<T>,
    port: PortId,
    stamp: u64,
    values: &[T],
) -> Result<usize> {
    let sample = write(alloc, bus, port, stamp, values)?;
    send(alloc, bus, sample)
}

/// The time stamp and the values of a sample, just as they were sent.
fn read<H: Home<u64, u64>>(
    alloc: Global,
    home: &H,
    sample: &slice::Sample<u64, u64>,
) -> Result<Heard, AllocError>
    requires { holds_message sample.now.port.number sample.now.taken (homes.ports_of H.domain_of sample.now.port.domain home.now) ≡ true }
    ensures { IfOk result (λ heard. Some (as_heard heard)
        ≡ option_map as_sent (message_found sample.now.taken (homes.ports_of H.domain_of sample.now.port.domain home.now))) }
{
    let mut values = Vec::new(alloc);
    values.extend_from_slice(sample.payload(home))?;
    Ok(Heard {
        stamp: *sample.user_header(home),
        values,
    })
}

/// Receives the next message of a bus, if one waits, and releases it. In the machine's terms these are the commands `Receive` and
/// `Release`, by any number that the subscriber has.
pub fn hear_on(alloc: Global, bus: &mut Bus, port: PortId) -> Result<Option<Heard>>
    ensures { IfOk result (λ heard. (held : NumberedHub ℕ ℕ Nobody Nobody) (number : ℕ) → value_at held.made.subscribers number ≡ Some port
        → HearsBySteps (bus_terms (codes "u64") 8 8 (λ value. value ≡ 0)) number (record held { hub = bus.old }) heard bus.new) }
{
    typed_subscriber_calls_are_steps::<u64, u64, kind::Slice, Nobody, Nobody>();
    hear(alloc, bus, port)
}

/// Receives the next message, if one waits, and releases it. What is heard is the time stamp and the values of the message that was
/// received.
pub fn hear<H: Home<u64, u64>>(alloc: Global, home: &mut H, port: PortId) -> Result<Option<Heard>>
    ensures { IfOk result (λ heard. (sample : Option (Received ℕ ℕ OfSlices)) × (received : H)
        × ReceivesSample (homes.ports_of H.domain_of) (homes.with_ports H.changed)
        (homes.subscriber_degrades (λ kept. H.ForSubscribers.degrades kept) H.domain_of) port home.old (Ok sample) received
        × IsHeard heard sample (homes.ports_of H.domain_of port.domain received)
        × LetsGo (homes.ports_of H.domain_of) (homes.with_ports H.changed) sample received home.new) }
{
    let subscriber = slice::Subscriber::of_port(port, 4);
    if !subscriber.holds(home) {
        bail!("no subscriber");
    }
    let received = subscriber.receive(alloc, home);
    let Some(sample) = received? else {
        return Ok(None);
    };
    if !sample.holds(home) {
        let _ = sample.into_taken();
        bail!("no sample");
    }
    let heard = read(alloc, home, &sample);
    sample.release(home);
    Ok(Some(heard?))
}
