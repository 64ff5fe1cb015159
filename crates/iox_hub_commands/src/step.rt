//! One command, and its reply.
ghost use Rattle.std.specs.Prelude.{◌≡◌, ◌+◌, ◌<◌, ◌≤◌, ◌^◌, IfOk, Ok, OnErr, OnOk};
ghost use Rattle.iox_hub_commands.specs.Agreements.{AreOfOneAgreement};
ghost use Rattle.iox_hub_commands.specs.Grown.{GrowsOn, HaveGrown, AreAsAgreed, OneDomainMoves};
ghost use Rattle.iox_hub_commands.specs.Lives.{ChangesOneThing};
ghost use Rattle.iox_hub_commands.specs.Numbers.{numbers_used};
ghost use Rattle.iox_hub_commands.specs.PortRoom.{FindsPort, GrowsAs, HasRoom, KeepsRoom, LacksInRoom, OfPorts, PledgesStay};
ghost use Rattle.iox_hub_commands.specs.CommandSteps.{Step, StepsUnlessOfPort};
ghost use Rattle.iox_hub_commands.specs.Terms.{terms_of};

use crate::numbered_hub::NumberedHub;
use crate::services::ServiceAsked;
use crate::{PublisherHandlers, SubscriberHandler};
use iox_command::ports::PortCommand;
use iox_command::{Command, Reply};
use iox_describe_base::ZeroCopySend;
use iox_queues_base::Words;
use std::alloc::{AllocError, Global};

impl<
    T: Words + ZeroCopySend + Default,
    U: Copy + ZeroCopySend + Default,
    B: PublisherHandlers,
    D: SubscriberHandler,
> NumberedHub<T, U, B, D> {
    /// Carries out one command, and returns the reply to it.
    ///
    /// A command is skipped, and nothing happens, if a number names nothing, if a port command names a factory of another pattern than
    /// publish-subscribe, if a send of the publisher is blocked (or none is, for `Retry` and `GiveUp`), or if a loan isn't written, or has
    /// other values or places than are named. If a call is refused, the reply is its error.
    ///
    /// A publisher is created after capacity was made for the numbers of all loans that it may make, and of its samples that may be held. A
    /// subscriber is created after capacity was made for the numbers of all samples that it may hold. So memory never runs out for the
    /// number of a loan or a sample. If an allocation fails for that capacity, the port is refused. The capacity grows at most to twice as
    /// many as are in use and as the existing ports and the new one may need, plus one for each factory, and one more.
    ///
    /// Fails only if an allocation fails for the values of the reply. Then nothing has changed, except that a received sample is held. A
    /// command that is skipped allocates nothing.
    /// Example: `let reply = hub.step(alloc, Command::Node)?;`
    pub fn step(&mut self, alloc: Global, command: Command<T>) -> Result<Reply<T>, AllocError>
        requires { numbers_used self.old + 1 < 2 ^ 64 }
        ensures steps { Step (terms_of T.name T.size T.alignment T.is_default U.name U.size U.alignment U.is_default B.fixed
            (λ handlers. B.degrades handlers) (λ handlers. B.decides handlers) D.fixed (λ handler. D.degrades handler)) command.entry
            self.old result self.new }
        ensures counts { numbers_used self.new ≤ numbers_used self.old + 1 }
        ensures one { ChangesOneThing self.old self.new }
        ensures grows { GrowsOn self.old.hub self.new.hub }
        ensures agreed { HaveGrown self.old.hub.services.domains → AreAsAgreed self.new.hub.services.domains }
        ensures one_agreement { AreOfOneAgreement self.old.factories.made self.old.hub
            → AreOfOneAgreement self.new.factories.made self.new.hub }
        ensures apart { OneDomainMoves self.old.hub self.new.hub }
        ensures room { KeepsRoom self.old self.new }
        ensures capacity { GrowsAs command.entry self.old self.new }
        ensures finds { OnErr result (FindsPort command.entry self.old) }
        ensures lacks { HasRoom self.old → OnErr result (LacksInRoom command.entry self.old self.new) }
    {
        self.carry_out(alloc, command)
    }

    // Carries out one command, with the step alone as contract, not its consequences.
    fn carry_out(&mut self, alloc: Global, command: Command<T>) -> Result<Reply<T>, AllocError>
        requires { numbers_used self.old + 1 < 2 ^ 64 }
        ensures comes { OfPorts (KeepsRoom self.old self.new) command.entry }
        ensures capacity { GrowsAs command.entry self.old self.new }
        ensures pledged { PledgesStay command.entry self.old result self.new }
        ensures finds { OnErr result (FindsPort command.entry self.old) }
        ensures steps { Step (terms_of T.name T.size T.alignment T.is_default U.name U.size U.alignment U.is_default B.fixed
            (λ handlers. B.degrades handlers) (λ handlers. B.decides handlers) D.fixed (λ handler. D.degrades handler)) command.entry
            self.old result self.new }
    {
        match self.carry_out_service(alloc, command) {
            Ok(reply) => Ok(reply),
            Err(command) => self.carry_out_port(alloc, command),
        }
    }

    // Carries out a command on nodes and services, or one that creates a port. A command on an existing port is handed back, and nothing
    // happens.
    fn carry_out_service<'a>(
        &mut self,
        alloc: Global,
        command: Command<'a, T>,
    ) -> Result<Reply<T>, PortCommand<'a, T>>
        requires { numbers_used self.old + 1 < 2 ^ 64 }
        ensures comes { OnOk result (OfPorts (KeepsRoom self.old self.new) command.entry) }
        ensures capacity { OnOk result (GrowsAs command.entry self.old self.new) }
        ensures pledged { IfOk result (λ reply. PledgesStay command.entry self.old (Ok reply) self.new) }
        ensures steps { StepsUnlessOfPort (Step (terms_of T.name T.size T.alignment T.is_default U.name U.size U.alignment U.is_default
            B.fixed (λ handlers. B.degrades handlers) (λ handlers. B.decides handlers) D.fixed (λ handler. D.degrades handler)))
            command.entry self.old result self.new }
    {
        match command {
            Command::Node => Ok(self.node()),
            Command::Create {
                node,
                name,
                options,
                attributes,
                steps,
            } => {
                let asked = ServiceAsked {
                    node,
                    name,
                    options,
                };
                Ok(self.create(alloc, asked, attributes, steps))
            }
            Command::Open {
                node,
                name,
                options,
                requirements,
                steps,
            } => {
                let asked = ServiceAsked {
                    node,
                    name,
                    options,
                };
                Ok(self.open(alloc, asked, requirements, steps))
            }
            Command::OpenOrCreate {
                node,
                name,
                options,
                requirements,
                steps,
            } => {
                let asked = ServiceAsked {
                    node,
                    name,
                    options,
                };
                Ok(self.open_or_create(alloc, asked, requirements, steps))
            }
            Command::Foreign {
                pattern,
                name,
                steps,
            } => Ok(self.foreign(alloc, pattern, name, steps)),
            Command::Close { factory } => Ok(self.close(factory)),
            Command::Publisher { factory, options } => {
                Ok(self.publisher(alloc, factory, &options))
            }
            Command::Subscriber { factory, options } => {
                Ok(self.subscriber(alloc, factory, &options))
            }
            Command::Loan { publisher, length } => Err(PortCommand::Loan { publisher, length }),
            Command::LoanUninit { publisher, length } => Err(PortCommand::LoanUninit {
                publisher,
                length,
            }),
            Command::Set { loan, place, value } => Err(PortCommand::Set { loan, place, value }),
            Command::Fill { loan, values } => Err(PortCommand::Fill { loan, values }),
            Command::Drop { loan } => Err(PortCommand::Drop { loan }),
            Command::Send { loan } => Err(PortCommand::Send { loan }),
            Command::Put { publisher, values } => Err(PortCommand::Put { publisher, values }),
            Command::Retry {
                publisher,
                nanoseconds,
            } => Err(PortCommand::Retry {
                publisher,
                nanoseconds,
            }),
            Command::GiveUp { publisher } => Err(PortCommand::GiveUp { publisher }),
            Command::Receive { subscriber } => Err(PortCommand::Receive { subscriber }),
            Command::Read { sample } => Err(PortCommand::Read { sample }),
            Command::Sequence { sample } => Err(PortCommand::Sequence { sample }),
            Command::Release { sample } => Err(PortCommand::Release { sample }),
            Command::Update { port } => Err(PortCommand::Update { port }),
            Command::Leave { port } => Err(PortCommand::Leave { port }),
            Command::Has { subscriber } => Err(PortCommand::Has { subscriber }),
        }
    }
}
