//! Typed calls: calls by which a program uses a hub, with its factories, ports, loans and samples as values.
//!
//! Most theorems are about single calls. `IsStepBy` says what a call is in the machine: if the hub, with what its program holds by numbers,
//! represents a state, the machine may give this answer from there to the command that asks for the same, and the hub after the call
//! represents the machine's state after it. So the calls of a program, from a new hub on, are a run of the machine (`HasCalled`). Messages
//! are values of one type, or slices of them.
ghost use Rattle.iox_hub_base.specs.DescribeBase.declared.type_detail.TypeVariant.{TypeVariant};
ghost use Rattle.iox_hub_commands.specs.DomainValues.declared.backpressure.BackpressureAction.{BackpressureAction};
ghost use Rattle.iox_hub_commands.specs.DomainValues.declared.backpressure_strategy.BackpressureStrategy.{BackpressureStrategy};
ghost use Rattle.iox_hub_commands.specs.DomainValues.declared.degradation.DegradationAction.{DegradationAction};
ghost use Rattle.iox_hub_commands.specs.Terms.{terms_of};
ghost use Rattle.std.specs.Prelude.{Option};
ghost use Rattle.iox_hub_machine.specs.TypedHandlers.{PublisherHandlersAreChosen, SubscriberHandlerIsChosen};
ghost use Rattle.iox_hub_machine.specs.TypedHeaders.{HeaderIsStep, HeaderNamesPublisher, HeaderReadAsSent};
ghost use Rattle.iox_hub_machine.specs.TypedHeaders.{UserHeadersKeepStanding, UserHeadersNeedNoCommand};
ghost use Rattle.iox_hub_machine.specs.TypedOpening.{ServiceCallsAreSteps};
ghost use Rattle.iox_hub_machine.specs.TypedPublishing.{PublisherCallsAreSteps};
ghost use Rattle.iox_hub_machine.specs.TypedReading.{HeldMayBeUsed, PayloadStays, PayloadWasSent};
ghost use Rattle.iox_hub_machine.specs.TypedRuns.{CallsBegin, CallsGoOn};
ghost use Rattle.iox_hub_machine.specs.TypedServices.{CloseIsStep, PublisherIsStep};
ghost use Rattle.iox_hub_machine.specs.TypedSubscribing.{SubscriberCallsAreSteps};
ghost use Rattle.iox_hub_machine.specs.TypedTelling.{HubTells};
ghost use Rattle.iox_hub_machine.specs.TypedTerms.{asked_terms};
ghost use Rattle.iox_machine.specs.Choices.{Handed, chosen_by};

use iox_describe_base::ZeroCopySend;
use iox_domain_values::{Decides, Degrades, Overrides};
use iox_hub_commands::{PublisherHandlers, SubscriberHandler};
use iox_machine::{received_was_sent, samples_read_the_same};

/// The calls of a program to a hub, from a new one on, are a run of the machine: a new hub has had no calls, and a call that is a step adds
/// one command. The hub, with what the program holds, represents the state that the run reaches.
pub fn typed_calls_are_a_run<
    T: ZeroCopySend + Default,
    U: ZeroCopySend + Default,
    B: Decides + Degrades,
    D: Degrades,
>()
    ensures begins { (handed : Handed B D)
        (fixed : BackpressureStrategy → Option BackpressureAction → DegradationAction → B) (fixed_reader : DegradationAction → D)
        (variant : TypeVariant) → CallsBegin (asked_terms variant (terms_of T.name T.size T.alignment T.is_default U.name U.size
        U.alignment U.is_default fixed (λ handlers. B.degrades handlers) (λ handlers. B.decides handlers) fixed_reader (λ handler.
        D.degrades handler))) (chosen_by T.is_default (λ who. B.decides who) (λ who. B.degrades who)
        (λ who. D.degrades who) handed) }
    ensures goes_on { (handed : Handed B D)
        (fixed : BackpressureStrategy → Option BackpressureAction → DegradationAction → B) (fixed_reader : DegradationAction → D)
        (variant : TypeVariant) → CallsGoOn (asked_terms variant (terms_of T.name T.size T.alignment T.is_default U.name U.size
        U.alignment U.is_default fixed (λ handlers. B.degrades handlers) (λ handlers. B.decides handlers) fixed_reader (λ handler.
        D.degrades handler))) (chosen_by T.is_default (λ who. B.decides who) (λ who. B.degrades who)
        (λ who. D.degrades who) handed) }
{}

/// If a hub represents a state of the machine, what its program holds by numbers can be used: ports are open, loans exist, and samples are
/// held, even those whose subscriber was closed. These are the conditions of the calls on them, except those about the values of a loan,
/// about blocked sends, and that a sample of a single value has one.
pub fn what_is_held_may_be_used<
    T: ZeroCopySend + Default,
    U: ZeroCopySend + Default,
    B: Decides + Degrades,
    D: Degrades,
>()
    ensures { (handed : Handed B D)
        (fixed : BackpressureStrategy → Option BackpressureAction → DegradationAction → B) (fixed_reader : DegradationAction → D)
        (variant : TypeVariant) → HeldMayBeUsed (asked_terms variant (terms_of T.name T.size T.alignment T.is_default U.name U.size
        U.alignment U.is_default fixed (λ handlers. B.degrades handlers) (λ handlers. B.decides handlers) fixed_reader (λ handler.
        D.degrades handler))) (chosen_by T.is_default (λ who. B.decides who) (λ who. B.degrades who)
        (λ who. D.degrades who) handed) }
{}

/// Each call that makes a node, creates, opens or acts on a service, or creates a subscriber is a step.
///
/// - Making a node: `new_node`.
/// - Creating a service, opening it, or opening or creating it: `create_with_attributes_in`, `open_with_attributes_in` and
///   `open_or_create_with_attributes_in` of a builder, with the lists of actions of other nodes that the command names.
///   A new factory gets the next number.
/// - Actions of other nodes on a service: `foreign`, with the actions that the command names.
/// - Creating a subscriber by a publish-subscribe factory: `create` and `create_slice` of its builder, with what the options of the
///   command name.
pub fn typed_service_calls_are_steps<
    T: ZeroCopySend + Default,
    U: ZeroCopySend + Default,
    B: Decides + Degrades,
    D: Degrades,
>()
    ensures { (handed : Handed B D)
        (fixed : BackpressureStrategy → Option BackpressureAction → DegradationAction → B) (fixed_reader : DegradationAction → D)
        (variant : TypeVariant) → ServiceCallsAreSteps (asked_terms variant (terms_of T.name T.size T.alignment T.is_default U.name
        U.size U.alignment U.is_default fixed (λ handlers. B.degrades handlers) (λ handlers. B.decides handlers) fixed_reader (λ
        handler. D.degrades handler))) (chosen_by T.is_default (λ who. B.decides who) (λ who. B.degrades who)
        (λ who. D.degrades who) handed) }
{}

/// Creating a publisher by a publish-subscribe factory is a step: `create` and `create_slice` of its builder, with what the options of the
/// command name. For a publisher of single values the command names a loan of one value, and a segment that never grows. The override of
/// its number of slots answers what the options name.
pub fn typed_publishers_come_by_steps<
    T: ZeroCopySend + Default,
    U: ZeroCopySend + Default,
    O: Overrides,
    B: Decides + Degrades,
    D: Degrades,
>(_overriding: &O)
    ensures { (handed : Handed B D)
        (fixed : BackpressureStrategy → Option BackpressureAction → DegradationAction → B) (fixed_reader : DegradationAction → D)
        (variant : TypeVariant) → PublisherIsStep (asked_terms variant (terms_of T.name T.size T.alignment T.is_default U.name U.size
        U.alignment U.is_default fixed (λ handlers. B.degrades handlers) (λ handlers. B.decides handlers) fixed_reader (λ handler.
        D.degrades handler))) (chosen_by T.is_default (λ who. B.decides who) (λ who. B.degrades who)
        (λ who. D.degrades who) handed) (O.overrides _overriding.now) }
{}

/// Closing a factory, or handing it back while it is in use, is a step: `close`.
pub fn typed_closes_are_steps<
    T: ZeroCopySend + Default,
    U: ZeroCopySend + Default,
    F,
    B: Decides + Degrades,
    D: Degrades,
>()
    ensures { (handed : Handed B D)
        (fixed : BackpressureStrategy → Option BackpressureAction → DegradationAction → B) (fixed_reader : DegradationAction → D)
        (variant : TypeVariant) → CloseIsStep (asked_terms variant (terms_of T.name T.size T.alignment T.is_default U.name U.size
        U.alignment U.is_default fixed (λ handlers. B.degrades handlers) (λ handlers. B.decides handlers) fixed_reader (λ handler.
        D.degrades handler))) (chosen_by T.is_default (λ who. B.decides who) (λ who. B.degrades who)
        (λ who. D.degrades who) handed) F }
{}

/// Each call of a publisher, of its loans and of its blocked sends is a step.
///
/// - Loaning values to be written: `loan_slice_uninit`, and `loan_uninit` for one. A new loan gets the next number.
/// - Loaning written values, by a publisher without a blocked send: `loan_slice`, and `loan` for one. All have one default value.
/// - Writing the values of a loan at once: `write_from_slice`, and `payload_write` and `write_payload` for one value. If the loan has
///   another number of values, the command is skipped, and nothing is written. Writing them one after the other: `write_from_fn`.
/// - Changing a value of a written loan at a place that the loan has: `payload_mut` and `value_mut`, when the reference ends.
/// - Loaning values, writing and sending them at once: `send_slice`, and `send_copy` for one value. No send of the publisher is blocked.
/// - Sending or dropping a loan: `send` and `drop_with` of a loan. The loan is consumed.
/// - Trying a blocked send again, or giving it up: `retry`, `give_up` and `drop_with` of a blocked send.
/// - Updating a publisher's connections, or closing it: `update_connections`, `leave` and `drop_with` of a publisher.
pub fn typed_publisher_calls_are_steps<
    T: ZeroCopySend + Default,
    U: ZeroCopySend + Default,
    K,
    B: Decides + Degrades,
    D: Degrades,
>()
    ensures { (handed : Handed B D)
        (fixed : BackpressureStrategy → Option BackpressureAction → DegradationAction → B) (fixed_reader : DegradationAction → D)
        (variant : TypeVariant) → PublisherCallsAreSteps K (asked_terms variant (terms_of T.name T.size T.alignment T.is_default
        U.name U.size U.alignment U.is_default fixed (λ handlers. B.degrades handlers) (λ handlers. B.decides handlers) fixed_reader
        (λ handler. D.degrades handler))) (chosen_by T.is_default (λ who. B.decides who) (λ who. B.degrades who)
        (λ who. D.degrades who) handed) }
{}

/// Each call of a subscriber and of its samples is a step.
///
/// - Receiving: `receive`. A received sample gets the next number, and the machine's answer has the values that its `payload` returns then.
/// - Updating a subscriber's connections, looking for data, or closing it: `update_connections`, `has_samples`, `leave`
///   and `drop_with` of a subscriber.
/// - Reading or releasing a sample: `payload`, `release` and `drop_with` of a sample. A numbered sample is held, so it is released in any
///   case.
pub fn typed_subscriber_calls_are_steps<
    T: ZeroCopySend + Default,
    U: ZeroCopySend + Default,
    K,
    B: Decides + Degrades,
    D: Degrades,
>()
    ensures { (handed : Handed B D)
        (fixed : BackpressureStrategy → Option BackpressureAction → DegradationAction → B) (fixed_reader : DegradationAction → D)
        (variant : TypeVariant) → SubscriberCallsAreSteps K (asked_terms variant (terms_of T.name T.size T.alignment T.is_default
        U.name U.size U.alignment U.is_default fixed (λ handlers. B.degrades handlers) (λ handlers. B.decides handlers) fixed_reader
        (λ handler. D.degrades handler))) (chosen_by T.is_default (λ who. B.decides who) (λ who. B.degrades who)
        (λ who. D.degrades who) handed) }
{}

/// Writing the user header of a loan (`user_header_write`, and `user_header_mut` when the reference ends) needs no command. The machine has
/// no user headers, so the hub represents the same state as before, and the calls of the program are the same run of the machine.
pub fn typed_user_headers_keep_standing<
    T: ZeroCopySend + Default,
    U: ZeroCopySend + Default,
    B: Decides + Degrades,
    D: Degrades,
>()
    ensures stands { (handed : Handed B D)
        (fixed : BackpressureStrategy → Option BackpressureAction → DegradationAction → B) (fixed_reader : DegradationAction → D)
        (variant : TypeVariant) → UserHeadersKeepStanding (asked_terms variant (terms_of T.name T.size T.alignment T.is_default
        U.name U.size U.alignment U.is_default fixed (λ handlers. B.degrades handlers) (λ handlers. B.decides handlers) fixed_reader
        (λ handler. D.degrades handler))) (chosen_by T.is_default (λ who. B.decides who) (λ who. B.degrades who)
        (λ who. D.degrades who) handed) }
    ensures called { (handed : Handed B D)
        (fixed : BackpressureStrategy → Option BackpressureAction → DegradationAction → B) (fixed_reader : DegradationAction → D)
        (variant : TypeVariant) → UserHeadersNeedNoCommand (asked_terms variant (terms_of T.name T.size T.alignment T.is_default
        U.name U.size U.alignment U.is_default fixed (λ handlers. B.degrades handlers) (λ handlers. B.decides handlers) fixed_reader
        (λ handler. D.degrades handler))) (chosen_by T.is_default (λ who. B.decides who) (λ who. B.degrades who)
        (λ who. D.degrades who) handed) }
{}

/// Reading the header of a sample (`header`) is a step: the sequence number that it reports is the machine's answer for the sample. The
/// publisher whose id it reports is that of the machine's sample.
pub fn typed_headers_are_read_by_steps<
    T: ZeroCopySend + Default,
    U: ZeroCopySend + Default,
    B: Decides + Degrades,
    D: Degrades,
>()
    ensures reads { (handed : Handed B D)
        (fixed : BackpressureStrategy → Option BackpressureAction → DegradationAction → B) (fixed_reader : DegradationAction → D)
        (variant : TypeVariant) → HeaderIsStep (asked_terms variant (terms_of T.name T.size T.alignment T.is_default U.name U.size
        U.alignment U.is_default fixed (λ handlers. B.degrades handlers) (λ handlers. B.decides handlers) fixed_reader (λ handler.
        D.degrades handler))) (chosen_by T.is_default (λ who. B.decides who) (λ who. B.degrades who)
        (λ who. D.degrades who) handed) }
    ensures names { (handed : Handed B D)
        (fixed : BackpressureStrategy → Option BackpressureAction → DegradationAction → B) (fixed_reader : DegradationAction → D)
        (variant : TypeVariant) → HeaderNamesPublisher (asked_terms variant (terms_of T.name T.size T.alignment T.is_default U.name
        U.size U.alignment U.is_default fixed (λ handlers. B.degrades handlers) (λ handlers. B.decides handlers) fixed_reader (λ
        handler. D.degrades handler))) (chosen_by T.is_default (λ who. B.decides who) (λ who. B.degrades who)
        (λ who. D.degrades who) handed) }
{}

/// What is recorded in the domains of a hub when sends begin. Nothing is recorded before any port was created. A call of the ports of a
/// domain adds what it records, in this domain alone. So each typed call of a port, a loan or a sample adds what it records.
pub fn typed_calls_tell<T, U, O: Overrides, B: PublisherHandlers, D: SubscriberHandler>()
    ensures { HubTells T U (λ overriding. O.overrides overriding) (λ handlers. B.degrades handlers) (λ handlers. B.decides handlers)
        (λ handler. D.degrades handler) }
{}

/// What the `header` and the `user_header` of a sample report was recorded when a send began in its domain, with the values and the
/// sequence number of the machine's sample, and by the publisher that the machine's sample names. `typed_calls_tell` says what is recorded.
pub fn typed_headers_are_as_sent<
    T: ZeroCopySend + Default,
    U: ZeroCopySend + Default,
    B: Decides + Degrades,
    D: Degrades,
>()
    ensures { (handed : Handed B D)
        (fixed : BackpressureStrategy → Option BackpressureAction → DegradationAction → B) (fixed_reader : DegradationAction → D)
        (variant : TypeVariant) → HeaderReadAsSent (asked_terms variant (terms_of T.name T.size T.alignment T.is_default U.name
        U.size U.alignment U.is_default fixed (λ handlers. B.degrades handlers) (λ handlers. B.decides handlers) fixed_reader (λ
        handler. D.degrades handler))) (chosen_by T.is_default (λ who. B.decides who) (λ who. B.degrades who)
        (λ who. D.degrades who) handed) }
{}

/// The values that the `payload` of a sample returns directly after a subscriber received it are those of a message whose send began
/// earlier, in the run of the machine that the calls of the program are. Its publisher is of the subscriber's own service, and has been so
/// since that send.
pub fn payload_was_sent<
    T: ZeroCopySend + Default,
    U: ZeroCopySend + Default,
    K,
    B: Decides + Degrades,
    D: Degrades,
>()
    ensures { (handed : Handed B D)
        (fixed : BackpressureStrategy → Option BackpressureAction → DegradationAction → B) (fixed_reader : DegradationAction → D)
        (variant : TypeVariant) → PayloadWasSent K (asked_terms variant (terms_of T.name T.size T.alignment T.is_default U.name
        U.size U.alignment U.is_default fixed (λ handlers. B.degrades handlers) (λ handlers. B.decides handlers) fixed_reader (λ
        handler. D.degrades handler))) (chosen_by T.is_default (λ who. B.decides who) (λ who. B.degrades who)
        (λ who. D.degrades who) handed) }
{
    received_was_sent::<T, B, D>();
}

/// The `payload` of a sample returns what it returned when the sample was received, as long as the sample has its number, whatever was
/// called meanwhile.
pub fn payload_stays<
    T: ZeroCopySend + Default,
    U: ZeroCopySend + Default,
    K,
    B: Decides + Degrades,
    D: Degrades,
>()
    ensures { (handed : Handed B D)
        (fixed : BackpressureStrategy → Option BackpressureAction → DegradationAction → B) (fixed_reader : DegradationAction → D)
        (variant : TypeVariant) → PayloadStays K (asked_terms variant (terms_of T.name T.size T.alignment T.is_default U.name U.size
        U.alignment U.is_default fixed (λ handlers. B.degrades handlers) (λ handlers. B.decides handlers) fixed_reader (λ handler.
        D.degrades handler))) (chosen_by T.is_default (λ who. B.decides who) (λ who. B.degrades who)
        (λ who. D.degrades who) handed) }
{
    samples_read_the_same::<T, B, D>();
}

/// Whatever the handlers of a port may decide at a full mailbox and answer at a failed connection may be chosen for it, if the choices have
/// these handlers at the port's number. So the calls of a program whose ports all have one value of handlers, as `Nobody`, need no premise.
pub fn handed_handlers_are_chosen<T: Default, B: Decides + Degrades, D: Degrades>()
    ensures publisher { PublisherHandlersAreChosen T.is_default (λ who. B.decides who) (λ who. B.degrades who) (λ who. D.degrades who) }
    ensures subscriber { SubscriberHandlerIsChosen T.is_default (λ who. B.decides who) (λ who. B.degrades who) (λ who. D.degrades who) }
{}
