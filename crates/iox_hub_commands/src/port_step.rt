//! One command of a port, and its reply.
ghost use Rattle.std.specs.Prelude.{◌≡◌, ◌+◌, ◌<◌, ◌≤◌, ◌^◌, OnErr};
ghost use Rattle.iox_command.specs.Ports.{command_of};
ghost use Rattle.iox_hub_commands.specs.Agreements.{AreOfOneAgreement};
ghost use Rattle.iox_hub_commands.specs.Grown.{GrowsOn, HaveGrown, AreAsAgreed, OneDomainMoves};
ghost use Rattle.iox_hub_commands.specs.Lives.{ChangesOneThing};
ghost use Rattle.iox_hub_commands.specs.Numbers.{numbers_used};
ghost use Rattle.iox_hub_commands.specs.PortRoom.{FindsPort, HasRoom, KeepsRoom, LacksInRoom, PledgesStay};
ghost use Rattle.iox_hub_commands.specs.CommandSteps.{Step};
ghost use Rattle.iox_hub_commands.specs.Terms.{terms_of};

use crate::numbered_hub::NumberedHub;
use crate::{PublisherHandlers, SubscriberHandler, following, lending, messages, receiving};
use iox_command::Reply;
use iox_command::ports::PortCommand;
use iox_describe_base::ZeroCopySend;
use iox_queues_base::Words;
use std::alloc::{AllocError, Global};

impl<
    T: Words + ZeroCopySend + Default,
    U: Copy + ZeroCopySend + Default,
    B: PublisherHandlers,
    D: SubscriberHandler,
> NumberedHub<T, U, B, D> {
    /// Carries out one command of a port, as `step` does. A `PortCommand` is smaller than a `Command`, so passing it costs less.
    /// Example: `let reply = hub.step_port(alloc, PortCommand::Receive { subscriber: 1 })?;`
    pub fn step_port(
        &mut self,
        alloc: Global,
        command: PortCommand<T>,
    ) -> Result<Reply<T>, AllocError>
        requires { numbers_used self.old + 1 < 2 ^ 64 }
        ensures steps { Step (terms_of T.name T.size T.alignment T.is_default U.name U.size U.alignment U.is_default B.fixed
            (λ handlers. B.degrades handlers) (λ handlers. B.decides handlers) D.fixed (λ handler. D.degrades handler))
            (command_of command.entry) self.old result self.new }
        ensures counts { numbers_used self.new ≤ numbers_used self.old + 1 }
        ensures one { ChangesOneThing self.old self.new }
        ensures grows { GrowsOn self.old.hub self.new.hub }
        ensures agreed { HaveGrown self.old.hub.services.domains → AreAsAgreed self.new.hub.services.domains }
        ensures one_agreement { AreOfOneAgreement self.old.factories.made self.old.hub
            → AreOfOneAgreement self.new.factories.made self.new.hub }
        ensures apart { OneDomainMoves self.old.hub self.new.hub }
        ensures room { KeepsRoom self.old self.new }
        ensures finds { OnErr result (FindsPort (command_of command.entry) self.old) }
        ensures lacks { HasRoom self.old → OnErr result (LacksInRoom (command_of command.entry) self.old self.new) }
    {
        self.carry_out_port(alloc, command)
    }

    // Carries out a command of a port, with the step alone as contract, not its consequences.
    pub(crate) fn carry_out_port(
        &mut self,
        alloc: Global,
        command: PortCommand<T>,
    ) -> Result<Reply<T>, AllocError>
        requires { numbers_used self.old + 1 < 2 ^ 64 }
        ensures pledged { PledgesStay (command_of command.entry) self.old result self.new }
        ensures finds { OnErr result (FindsPort (command_of command.entry) self.old) }
        ensures steps { Step (terms_of T.name T.size T.alignment T.is_default U.name U.size U.alignment U.is_default B.fixed
            (λ handlers. B.degrades handlers) (λ handlers. B.decides handlers) D.fixed (λ handler. D.degrades handler))
            (command_of command.entry) self.old result self.new }
    {
        match command {
            PortCommand::Loan { publisher, length } => {
                lending::loan(alloc, &mut self.made, &mut self.hub, publisher, length)
            }
            PortCommand::LoanUninit { publisher, length } => {
                lending::loan_uninit(alloc, &mut self.made, &mut self.hub, publisher, length)
            }
            PortCommand::Set { loan, place, value } => {
                Ok(messages::set(&self.made, &mut self.hub, loan, place, value))
            }
            PortCommand::Fill { loan, values } => {
                Ok(messages::fill(&self.made, &mut self.hub, loan, values.items))
            }
            PortCommand::Drop { loan } => {
                Ok(messages::drop_loan(&mut self.made, &mut self.hub, loan))
            }
            PortCommand::Send { loan } => {
                Ok(messages::send(alloc, &mut self.made, &mut self.hub, loan))
            }
            PortCommand::Put { publisher, values } => Ok(lending::put(
                alloc,
                &self.made,
                &mut self.hub,
                publisher,
                values.items,
            )),
            PortCommand::Retry {
                publisher,
                nanoseconds,
            } => Ok(messages::retry(&self.made, &mut self.hub, publisher, nanoseconds)),
            PortCommand::GiveUp { publisher } => {
                Ok(messages::give_up(&self.made, &mut self.hub, publisher))
            }
            PortCommand::Receive { subscriber } => {
                receiving::receive(alloc, &mut self.made, &mut self.hub, subscriber)
            }
            PortCommand::Read { sample } => messages::read(alloc, &self.made, &self.hub, sample),
            PortCommand::Sequence { sample } => {
                Ok(messages::sequence(&self.made, &self.hub, sample))
            }
            PortCommand::Release { sample } => {
                Ok(messages::release(&mut self.made, &mut self.hub, sample))
            }
            PortCommand::Update { port } => {
                Ok(following::update(alloc, &self.made, &mut self.hub, port))
            }
            PortCommand::Leave { port } => Ok(self.leave(port)),
            PortCommand::Has { subscriber } => {
                Ok(following::has(alloc, &self.made, &mut self.hub, subscriber))
            }
        }
    }
}
