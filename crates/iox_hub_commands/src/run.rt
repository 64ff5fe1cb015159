//! A list of commands.
ghost use Rattle.std.specs.Prelude.{◌≡◌, ◌+◌, ◌<◌, ◌≤◌, ◌^◌, true, length};
ghost use Rattle.iox_hub_commands.specs.Agreements.{AreOfOneAgreement};
ghost use Rattle.iox_hub_commands.specs.Grown.{GrowsOn, HaveGrown, AreAsAgreed};
ghost use Rattle.iox_hub_commands.specs.Lives.{NumbersGoOn};
ghost use Rattle.iox_hub_commands.specs.Numbers.{numbers_used};
ghost use Rattle.iox_hub_commands.specs.PortRoom.{HasRoom, KeepsRoom};
ghost use Rattle.iox_hub_commands.specs.Room.{StopsInTime};
ghost use Rattle.iox_hub_commands.specs.Runs.{IsRun};
ghost use Rattle.iox_hub_commands.specs.CommandSteps.{Step, StepInRoom};
ghost use Rattle.iox_hub_commands.specs.Terms.{terms_of};

use crate::numbered_hub::NumberedHub;
use crate::{PublisherHandlers, SubscriberHandler};
use iox_command::{Command, Reply};
use iox_describe_base::ZeroCopySend;
use iox_queues_base::Words;
use std::alloc::Global;

/// The replies to a list of commands.
///
/// Not in `iceoryx2`.
#[derive(Drop)]
pub struct RunReport<T> {
    /// One reply for each command, in order, unless the run stopped.
    pub replies: Vec<Reply<T>>,
    /// Whether the run stopped before the last reply: memory ran out for the list of replies, or for the values of a reply.
    pub stopped: bool,
}

impl<
    T: Words + ZeroCopySend + Default,
    U: Copy + ZeroCopySend + Default,
    B: PublisherHandlers,
    D: SubscriberHandler,
> NumberedHub<T, U, B, D> {
    /// Carries out commands, one after the other, after capacity was made for all replies.
    ///
    /// It stops before the first command if an allocation fails for that capacity, and then nothing has changed; or at a command that
    /// receives or reads, if an allocation fails for the values of its reply, and then those before it have their replies. It makes no
    /// capacity for numbers: each port made that when it was created, as `step` says.
    /// Example: `let report = hub.run(alloc, commands);`
    pub fn run(&mut self, alloc: Global, commands: Vec<Command<T>>) -> RunReport<T>
        requires { numbers_used self.old + length commands.items < 2 ^ 64 }
        ensures ran { IsRun (Step (terms_of T.name T.size T.alignment T.is_default U.name U.size U.alignment U.is_default B.fixed
            (λ handlers. B.degrades handlers) (λ handlers. B.decides handlers) D.fixed (λ handler. D.degrades handler)))
            commands.entry.items self.old result.replies.items result.stopped self.new }
        ensures each { IsRun (StepInRoom (terms_of T.name T.size T.alignment T.is_default U.name U.size U.alignment U.is_default B.fixed
            (λ handlers. B.degrades handlers) (λ handlers. B.decides handlers) D.fixed (λ handler. D.degrades handler)))
            commands.entry.items self.old result.replies.items result.stopped self.new }
        ensures stops { HasRoom self.old → HaveGrown self.old.hub.services.domains → result.stopped ≡ true
            → StopsInTime commands.entry.items self.old (length result.replies.items) self.new }
        ensures counts { numbers_used self.new ≤ numbers_used self.old + length commands.entry.items }
        ensures room { KeepsRoom self.old self.new }
        ensures goes_on { NumbersGoOn self.old self.new }
        ensures grows { GrowsOn self.old.hub self.new.hub }
        ensures agreed { HaveGrown self.old.hub.services.domains → AreAsAgreed self.new.hub.services.domains }
        ensures one_agreement { AreOfOneAgreement self.old.factories.made self.old.hub
            → AreOfOneAgreement self.new.factories.made self.new.hub }
    {
        self.carry_out_all(alloc, commands)
    }

    // Carries out the commands, with the run alone as contract, not its consequences.
    fn carry_out_all(&mut self, alloc: Global, commands: Vec<Command<T>>) -> RunReport<T>
        requires { numbers_used self.old + length commands.items < 2 ^ 64 }
        ensures ran { IsRun (Step (terms_of T.name T.size T.alignment T.is_default U.name U.size U.alignment U.is_default B.fixed
            (λ handlers. B.degrades handlers) (λ handlers. B.decides handlers) D.fixed (λ handler. D.degrades handler)))
            commands.entry.items self.old result.replies.items result.stopped self.new }
        ensures each { IsRun (StepInRoom (terms_of T.name T.size T.alignment T.is_default U.name U.size U.alignment U.is_default B.fixed
            (λ handlers. B.degrades handlers) (λ handlers. B.decides handlers) D.fixed (λ handler. D.degrades handler)))
            commands.entry.items self.old result.replies.items result.stopped self.new }
        ensures stops { HasRoom self.old → HaveGrown self.old.hub.services.domains → result.stopped ≡ true
            → StopsInTime commands.entry.items self.old (length result.replies.items) self.new }
        ensures counts { numbers_used self.new ≤ numbers_used self.old + length commands.entry.items }
        ensures room { KeepsRoom self.old self.new }
    {
        let Ok(mut replies) = Vec::with_capacity(alloc, commands.len()) else {
            return RunReport {
                replies: Vec::new(alloc),
                stopped: true,
            };
        };
        for command in commands {
            let Ok(reply) = self.step(alloc, command) else {
                return RunReport {
                    replies,
                    stopped: true,
                };
            };
            replies.push_reserved(reply);
        }
        RunReport {
            replies,
            stopped: false,
        }
    }
}
