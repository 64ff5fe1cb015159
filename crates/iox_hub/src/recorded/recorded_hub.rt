//! A hub that records what it is asked and what it answers, for proofs alone.
ghost use Rattle.std.specs.Prelude.{◌≡◌, ◌+◌, ◌<◌, ◌^◌, ◌++◌, ◌∷◌, [], true, false, Some, IfSome, IfOk, IfErr, IsOkAnd, IsSome};
ghost use Rattle.std.specs.Prelude.{MatchOption, MatchResult, Ok, length, max};
ghost use Rattle.std.specs.List.{AllByRecursion};
ghost use Rattle.std.specs.Global.{Vec};
ghost use Rattle.std.specs.Option.{option_map, option_map_or, unwrap_or};
ghost use Rattle.std.specs.Result.{result_ok};
ghost use Rattle.std.specs.Vec.{vec_items};
ghost use Rattle.iox_command.specs.declared.command.Command.TheVariants as command;
ghost use Rattle.iox_command.specs.declared.port.PortNumber.TheVariants as port_number;
ghost use Rattle.iox_command.specs.declared.reply.Reply.TheVariants as reply;
ghost use Rattle.iox_command.specs.declared.refusal.Refusal.TheVariants as refusal;
ghost use Rattle.iox_command.specs.declared.service.ServiceOptions.TheVariants as service_options;
ghost use Rattle.iox_container.specs.NumberTable.{inserted, removed, value_at};
ghost use Rattle.iox_delivery.specs.declared.sent.Sent.TheVariants as sent;
ghost use Rattle.iox_hub_commands.specs.Asked.{types_of};
ghost use Rattle.iox_hub_commands.specs.DescribeBase.Hash.{service_hash_of};
ghost use Rattle.iox_hub_commands.specs.DescribeBase.declared.pattern.MessagingPattern.TheVariants as messaging_pattern;
ghost use Rattle.iox_hub_commands.specs.DescribeBase.declared.type_detail.TypeVariant.TheVariants.{Dynamic};
ghost use Rattle.iox_hub_commands.specs.DescribeSettings.declared.static_config.Settings.TheVariants as settings;
ghost use Rattle.iox_hub_commands.specs.DomainValues.declared.backpressure_strategy.BackpressureStrategy.TheVariants.{RetryUntilDelivered};
ghost use Rattle.iox_hub_commands.specs.DescribeSettings.declared.static_config.publish_subscribe.StaticConfig.{StaticConfig};
ghost use Rattle.iox_hub_commands.specs.Tables.{no_numbers};
ghost use Rattle.iox_hub_commands.specs.declared.services.made.MadeFactory.TheVariants as made_factory;
ghost use Rattle.iox_machine.specs.Agreement.{are_within_limits, verdict};
ghost use Rattle.iox_machine.specs.Asked.{settings_of};
ghost use Rattle.iox_machine.specs.Choices.{Handed, chosen_by};
ghost use Rattle.iox_machine.specs.Run.{Answers};
ghost use Rattle.iox_hub.specs.Recorded.{AreFollowed, asked_too};
ghost use Rattle.iox_hub.specs.RecordedCalls.{IsAsAsked, IsReceived, KeepNumbers, answered_as, told_send};
ghost use Rattle.iox_hub.specs.RecordedLaws.{WasSentBefore};

use crate::recorded::history::History;
use crate::recorded::named::{Named, Number};
use crate::recorded::{calls, services};
use iox_command::{
    ForeignStep, HubError, PublishSubscribeOptions, PublisherOptions, SubscriberOptions,
};
use iox_delivery::kind::Slice;
use iox_delivery::{BlockedSend, Sent, slices as slice};
use iox_describe::pattern::PublishSubscribe;
use iox_describe_base::{
    AttributeSpecifier, AttributeVerifier, MessagingPattern, ServiceName, ZeroCopySend,
};
use iox_domain::calls::{create_publisher, create_subscriber};
use iox_domain_values::{
    ConnectionFailure, PublisherCreateError, ReceiveError, SendError, SubscriberCreateError,
};
use iox_hub_base::{Hub, HubConfig, NodeHandle, PortFactory};
use iox_hub_commands::services::foreign;
use iox_hub_commands::{
    FixedDegradation, FixedHandlers, NamedSlots, PublisherHandlers, SubscriberHandler, domain_of,
    owner_of, publisher_config, publisher_handlers, subscriber_config, subscriber_handler,
};
use iox_hub_machine::typed::{
    typed_calls_are_a_run, typed_closes_are_steps, typed_publisher_calls_are_steps,
    typed_publishers_come_by_steps, typed_service_calls_are_steps,
    typed_subscriber_calls_are_steps, what_is_held_may_be_used,
};
use iox_machine::{received_was_sent, samples_read_the_same};
use iox_negotiate_base::errors::{
    CloseError, PublishSubscribeCreateError, PublishSubscribeOpenError,
    PublishSubscribeOpenOrCreateError,
};
use iox_queues_base::Words;
use std::alloc::Global;
use std::marker::Model;

/// A hub of slices whose proofs know what it was asked, as commands, and what it answered.
///
/// Each call says which command it is, and what its answer is; a call that can't be made is recorded as a command that is skipped.
/// `answers_as_machine` says that commands and answers are a run of the machine. At run time it is a hub, and a flag whether all that was
/// received fits in a vector. Not in `iceoryx2`.
#[derive(Drop)]
pub struct RecordedHub<
    T: Words + ZeroCopySend + Default,
    U: Copy + ZeroCopySend + Default,
    B: PublisherHandlers = FixedHandlers,
    D: SubscriberHandler = FixedDegradation,
> {
    pub(crate) hub: Hub<T, U, B, D>,
    pub(crate) history: History<T>,
    // Whether it is known that each received message fits in a vector.
    fit: bool,
}

impl<
    T: Words + ZeroCopySend + Default,
    U: Copy + ZeroCopySend + Default,
    B: PublisherHandlers,
    D: SubscriberHandler,
> Model for RecordedHub<T, U, B, D> {
    ghost use Rattle.iox_hub_commands.specs.DescribeBase.declared.type_detail.TypeVariant.TheVariants.{Dynamic};
    ghost use Rattle.iox_hub_commands.specs.Terms.{terms_of};
    ghost use Rattle.iox_hub_machine.specs.TypedTerms.{asked_terms};
    ghost use Rattle.iox_hub.specs.Recorded.{HubRecord};
    ghost use Rattle.iox_hub.specs.Recording.{IsRecorded, newest_there};

    ghost Value = { HubRecord T };

    ghost view = { λ recorded. record {
      calls = recorded.history.calls;
      newest = newest_there recorded.history.calls recorded.hub;
    } };

    ghost invariant = { λ recorded. IsRecorded (asked_terms Dynamic (terms_of T.name T.size T.alignment T.is_default U.name U.size
        U.alignment U.is_default B.fixed (λ handlers. B.degrades handlers) (λ handlers. B.decides handlers) D.fixed
        (λ handler. D.degrades handler))) recorded.fit recorded.history.calls recorded.hub };
}

impl<
    T: Words + ZeroCopySend + Default,
    U: Copy + ZeroCopySend + Default,
    B: PublisherHandlers,
    D: SubscriberHandler,
> RecordedHub<T, U, B, D> {
    /// A hub without nodes and services, which wasn't asked anything yet. It takes no memory.
    /// Example: `let mut hub = RecordedHub::<u64, ()>::new(alloc, config);`
    pub fn new(alloc: Global, config: HubConfig) -> Self
        ensures begun { result.calls ≡ record {
          asked = [];
          answers = [];
          made = record { publishers = no_numbers; subscribers = no_numbers; loans = no_numbers; samples = no_numbers };
          factories = no_numbers;
          received = [];
          config = config;
        } }
    {
        typed_calls_are_a_run::<T, U, B, D>();
        RecordedHub {
            hub: Hub::new(alloc, config),
            history: History::told(&config, &(), &(), &()),
            fit: true,
        }
    }

    /// Does nothing. Its contract says that what was asked and answered is a run of a new machine, under the premises in the definition.
    /// Example: `hub.answers_as_machine();`
    pub fn answers_as_machine(&self)
        ensures answers { (handed : Handed B D) → AreFollowed B.fixed (λ handlers. B.degrades handlers)
            (λ handlers. B.decides handlers) D.fixed (λ handler. D.degrades handler) handed self.now.calls
            → Answers (types_of T.name T.size T.alignment U.name U.size U.alignment)
            (chosen_by T.is_default (λ handlers. B.decides handlers) (λ handlers. B.degrades handlers) (λ handler. D.degrades handler)
            handed) self.now.calls.config.expired_connection_buffer self.now.calls.asked false self.now.calls.answers }
    {
        let _ = &self.hub;
    }

    /// Whether it is known that each received message fits in a vector, which is one of the premises. Under `AreFollowed` it is known.
    /// Example: `let is_known = hub.received_fit();`
    pub fn received_fit(&self) -> bool
        ensures fit { result ≡ true → AllByRecursion (λ values. length values < 2 ^ 63) self.now.calls.received }
        ensures known { (handed : Handed B D) → AreFollowed B.fixed (λ handlers. B.degrades handlers)
            (λ handlers. B.decides handlers) D.fixed (λ handler. D.degrades handler) handed
            self.now.calls → result ≡ true }
    {
        self.fit
    }

    /// Makes one more node: the command `Node`. It never fails.
    /// Example: `let Ok(node) = hub.new_node() else { return None; };`
    pub fn new_node(&mut self) -> Result<NodeHandle, HubError>
        ensures node { IsOkAnd result (λ node. self.new.calls ≡ asked_too command.Node (reply.NodeMade node.number) self.old.calls) }
        ensures here { IfOk result (λ node. node.hub ≡ self.new.calls.config.id) }
    {
        typed_calls_are_a_run::<T, U, B, D>();
        typed_service_calls_are_steps::<T, U, B, D>();
        let answer = self.hub.new_node();
        self.history = History::told(&self.history, &(), &answer, &());
        answer
    }

    /// A node of this hub creates the service of a name, as the options ask, with these attributes: the command `Create`, without actions
    /// of other nodes. None, and the command is skipped, if no node of its number was made. The service's agreement is exactly what is
    /// asked. The other factories keep their numbers.
    ///
    /// Refused as the machine refuses it.
    /// Example: `let Some(Ok(service)) = hub.create(alloc, &node, name, &options, &AttributeSpecifier::new()) else { return None; };`
    pub fn create(
        &mut self,
        alloc: Global,
        node: &NodeHandle,
        name: ServiceName,
        options: &PublishSubscribeOptions,
        attributes: &AttributeSpecifier,
    ) -> Option<Result<Named<PortFactory<PublishSubscribe>>, PublishSubscribeCreateError>>
        requires { node.now.hub ≡ self.old.calls.config.id }
        ensures created { self.new.calls ≡ answered_as result
            (command.Create node.now.number name (service_options.PublishSubscribe options.now) attributes.now [])
            (λ factory. reply.FactoryMade self.old.calls.factories.next) refusal.PublishSubscribeCreate
            (λ factory calls. record calls { factories = inserted calls.factories (made_factory.PublishSubscribe factory.it) })
            self.old.calls }
        ensures number { IfSome result (λ answer. IfOk answer (λ factory. (factory.number.value ≡ self.old.calls.factories.next)
            × (value_at self.new.calls.factories factory.number.value ≡ Some (made_factory.PublishSubscribe factory.it)))) }
        ensures others { KeepNumbers self.old.calls.factories self.new.calls.factories }
        ensures agreed { IfSome result (λ answer. IfOk answer (λ factory.
            (factory.it.service.membership.service.description.service_hash ≡ service_hash_of messaging_pattern.PublishSubscribe name)
            × (factory.it.service.membership.service.description.name ≡ name)
            × (factory.it.service.membership.service.description.settings
            ≡ settings_of (types_of T.name T.size T.alignment U.name U.size U.alignment) (service_options.PublishSubscribe options.now))
            × (factory.it.service.membership.service.description.attributes ≡ attributes.now))) }
        ensures here { IfSome result (λ answer. IfOk answer (λ factory.
            factory.it.service.membership.storage ≡ self.old.calls.config.id)) }
    {
        typed_calls_are_a_run::<T, U, B, D>();
        typed_service_calls_are_steps::<T, U, B, D>();
        let number = Number::given(&self.history);
        let asked = node.number();
        let answer = services::create_if(&mut self.hub, alloc, asked, name, options, attributes);
        self.history = History::told(&self.history, &(asked, name, *options), &answer, attributes);
        calls::with_number(answer, number)
    }

    /// A node of this hub opens the existing service of a name, if it is as the options ask: the command `Open`, without actions of other
    /// nodes. None, and the command is skipped, if no node of its number was made. The service's agreement meets what is asked. The other
    /// factories keep their numbers.
    ///
    /// Refused as the machine refuses it.
    /// Example: `let Some(Ok(service)) = hub.open(alloc, &node, name, &options, AttributeVerifier::new()) else { return None; };`
    pub fn open(
        &mut self,
        alloc: Global,
        node: &NodeHandle,
        name: ServiceName,
        options: &PublishSubscribeOptions,
        attributes: AttributeVerifier,
    ) -> Option<Result<Named<PortFactory<PublishSubscribe>>, PublishSubscribeOpenError>>
        requires { node.now.hub ≡ self.old.calls.config.id }
        ensures opened { self.new.calls ≡ answered_as result
            (command.Open node.now.number name (service_options.PublishSubscribe options.now) attributes [])
            (λ factory. reply.FactoryMade self.old.calls.factories.next) refusal.PublishSubscribeOpen
            (λ factory calls. record calls { factories = inserted calls.factories (made_factory.PublishSubscribe factory.it) })
            self.old.calls }
        ensures number { IfSome result (λ answer. IfOk answer (λ factory. (factory.number.value ≡ self.old.calls.factories.next)
            × (value_at self.new.calls.factories factory.number.value ≡ Some (made_factory.PublishSubscribe factory.it)))) }
        ensures others { KeepNumbers self.old.calls.factories self.new.calls.factories }
        ensures agreed { IfSome result (λ answer. IfOk answer (λ factory.
            (factory.it.service.membership.service.description.service_hash ≡ service_hash_of messaging_pattern.PublishSubscribe name)
            × (verdict (types_of T.name T.size T.alignment U.name U.size U.alignment) (service_options.PublishSubscribe options.now)
            attributes (record {
              settings = factory.it.service.membership.service.description.settings;
              attributes = factory.it.service.membership.service.description.attributes;
            }) ≡ Ok tt)
            × (are_within_limits factory.it.service.membership.service.description.settings ≡ true))) }
        ensures here { IfSome result (λ answer. IfOk answer (λ factory.
            factory.it.service.membership.storage ≡ self.old.calls.config.id)) }
    {
        typed_calls_are_a_run::<T, U, B, D>();
        typed_service_calls_are_steps::<T, U, B, D>();
        let number = Number::given(&self.history);
        let (answer, history) = services::opened(
            &mut self.hub,
            &self.history,
            alloc,
            node.number(),
            name,
            options,
            attributes,
        );
        self.history = history;
        calls::with_number(answer, number)
    }

    /// A node of this hub opens the service of a name, as the options ask, or creates it if it doesn't exist: the command `OpenOrCreate`,
    /// without actions of other nodes. None, and the command is skipped, if no node of its number was made. The service's agreement meets
    /// what is asked, or is exactly that. The other factories keep their numbers.
    ///
    /// Refused as the machine refuses it.
    /// Example: `let Some(Ok(service)) = hub.open_or_create(alloc, &node, name, &options, AttributeVerifier::new()) else { return None; };`
    pub fn open_or_create(
        &mut self,
        alloc: Global,
        node: &NodeHandle,
        name: ServiceName,
        options: &PublishSubscribeOptions,
        attributes: AttributeVerifier,
    ) -> Option<Result<Named<PortFactory<PublishSubscribe>>, PublishSubscribeOpenOrCreateError>>
        requires { node.now.hub ≡ self.old.calls.config.id }
        ensures opened { self.new.calls ≡ answered_as result
            (command.OpenOrCreate node.now.number name (service_options.PublishSubscribe options.now) attributes [])
            (λ factory. reply.FactoryMade self.old.calls.factories.next) refusal.PublishSubscribeOpenOrCreate
            (λ factory calls. record calls { factories = inserted calls.factories (made_factory.PublishSubscribe factory.it) })
            self.old.calls }
        ensures number { IfSome result (λ answer. IfOk answer (λ factory. (factory.number.value ≡ self.old.calls.factories.next)
            × (value_at self.new.calls.factories factory.number.value ≡ Some (made_factory.PublishSubscribe factory.it)))) }
        ensures others { KeepNumbers self.old.calls.factories self.new.calls.factories }
        ensures agreed { IfSome result (λ answer. IfOk answer (λ factory.
            IsAsAsked (types_of T.name T.size T.alignment U.name U.size U.alignment) name options.now attributes
            factory.it.service.membership.service)) }
        ensures here { IfSome result (λ answer. IfOk answer (λ factory.
            factory.it.service.membership.storage ≡ self.old.calls.config.id)) }
    {
        typed_calls_are_a_run::<T, U, B, D>();
        typed_service_calls_are_steps::<T, U, B, D>();
        let number = Number::given(&self.history);
        let (answer, history) = services::opened_or_created(
            &mut self.hub,
            &self.history,
            alloc,
            node.number(),
            name,
            options,
            attributes,
        );
        self.history = history;
        calls::with_number(answer, number)
    }

    /// Closes a factory of this hub: the command `Close`. The factory is consumed, even if its description or segment couldn't be removed;
    /// while it is in use it is handed back.
    ///
    /// Refused as the machine refuses it.
    /// Example: `let refused = hub.close(service).err();`
    pub fn close(
        &mut self,
        factory: Named<PortFactory<PublishSubscribe>>,
    ) -> Result<(), (CloseError, Option<Named<PortFactory<PublishSubscribe>>>)>
        requires made { value_at self.old.calls.factories factory.number.value ≡ Some (made_factory.PublishSubscribe factory.it) }
        requires here { factory.it.service.membership.storage ≡ self.old.calls.config.id }
        ensures { MatchResult result
            (λ done. self.new.calls ≡ record (asked_too (command.Close factory.number.value) reply.Done self.old.calls) {
              factories = removed self.old.calls.factories factory.number.value;
            })
            (λ refused. MatchOption refused.1
            (self.new.calls
            ≡ record (asked_too (command.Close factory.number.value) (reply.Refused (refusal.Close refused.0)) self.old.calls) {
              factories = removed self.old.calls.factories factory.number.value;
            })
            (λ back. (back ≡ factory) × (self.new.calls
            ≡ asked_too (command.Close factory.number.value) (reply.Refused (refusal.Close refused.0)) self.old.calls))) }
    {
        typed_calls_are_a_run::<T, U, B, D>();
        typed_closes_are_steps::<T, U, PortFactory<PublishSubscribe>, B, D>();
        let Named { it, number } = factory;
        let closed = self.hub.close(it);
        self.history = History::told(&self.history, &number, &closed, &());
        services::closed_with_number(closed, number)
    }

    /// Does actions of other nodes on the service of a pattern and a name, one after the other: the command `Foreign`. It is refused at the
    /// first action that runs out of memory; those before it stay done.
    /// Example: `let done = hub.foreign(alloc, MessagingPattern::PublishSubscribe, name, &[ForeignStep::Lock(1)]);`
    pub fn foreign(
        &mut self,
        alloc: Global,
        pattern: MessagingPattern,
        name: ServiceName,
        steps: &[ForeignStep],
    ) -> Result<(), HubError>
        ensures { self.new.calls ≡ answered_as (Some result) (command.Foreign pattern name steps.now) (λ done. reply.Done) refusal.Hub
            (λ done calls. calls) self.old.calls }
    {
        typed_calls_are_a_run::<T, U, B, D>();
        let answer = foreign(alloc, &mut self.hub, pattern, &name, steps);
        self.history = services::told_foreign(&self.history, pattern, name, steps, &answer);
        answer
    }

    /// Creates a publisher of a service, as the options ask: the command `Publisher`. None, and the command is skipped, if the service's
    /// domain isn't in the hub. Other publishers keep their numbers.
    ///
    /// Refused as the machine refuses it.
    /// Example: `let Some(Ok(publisher)) = hub.publisher(alloc, &service, &options) else { return None; };`
    pub fn publisher(
        &mut self,
        alloc: Global,
        factory: &Named<PortFactory<PublishSubscribe>>,
        options: &PublisherOptions,
    ) -> Option<Result<Named<slice::Publisher<T, U>>, PublisherCreateError>>
        requires { value_at self.old.calls.factories factory.now.number.value ≡ Some (made_factory.PublishSubscribe factory.now.it) }
        ensures made { self.new.calls ≡ answered_as result (command.Publisher factory.now.number.value options.now)
            (λ publisher. reply.PublisherMade self.old.calls.made.publishers.next) refusal.Publisher
            (λ publisher calls. record calls {
              made = record calls.made {
                publishers = inserted calls.made.publishers (record { port = publisher.it.port; holds_slices = true });
              };
            }) self.old.calls }
        ensures others { KeepNumbers self.old.calls.made.publishers self.new.calls.made.publishers }
        ensures number { IfSome result (λ answer. IfOk answer (λ publisher.
            (publisher.number.value ≡ self.old.calls.made.publishers.next)
            × (value_at self.new.calls.made.publishers publisher.number.value
            ≡ Some (record { port = publisher.it.port; holds_slices = true }))
            × (publisher.it.side ≡ record {
              strategy = unwrap_or options.now.backpressure_strategy RetryUntilDelivered;
              initial_max_slice_len = unwrap_or options.now.initial_max_slice_len 1;
              payload = Dynamic;
            }))) }
    {
        let domain = domain_of(&factory.it);
        let number = Number::given(&self.history);
        let config = publisher_config(owner_of(&factory.it), options);
        let slots = NamedSlots {
            slots: options.preallocated_samples,
        };
        typed_calls_are_a_run::<T, U, B, D>();
        typed_publishers_come_by_steps::<T, U, NamedSlots, B, D>(&slots);
        let answer = create_publisher(
            &mut self.hub,
            alloc,
            domain,
            config,
            U::default(),
            &slots,
            publisher_handlers(options),
        );
        self.history = History::told(&self.history, &factory.number, &answer, &(domain, *options));
        calls::with_number(calls::publisher_of(domain, options, answer), number)
    }

    /// Creates a subscriber of a service, as the options ask: the command `Subscriber`. None, and the command is skipped, if the service's
    /// domain isn't in the hub. Other subscribers keep their numbers. A buffer of 0 has room for one message.
    ///
    /// Refused as the machine refuses it.
    /// Example: `let Some(Ok(subscriber)) = hub.subscriber(alloc, &service, &options) else { return None; };`
    pub fn subscriber(
        &mut self,
        alloc: Global,
        factory: &Named<PortFactory<PublishSubscribe>>,
        options: &SubscriberOptions,
    ) -> Option<Result<Named<slice::Subscriber<T, U>>, SubscriberCreateError>>
        requires { value_at self.old.calls.factories factory.now.number.value ≡ Some (made_factory.PublishSubscribe factory.now.it) }
        ensures made { self.new.calls ≡ answered_as result (command.Subscriber factory.now.number.value options.now)
            (λ subscriber. reply.SubscriberMade self.old.calls.made.subscribers.next) refusal.Subscriber
            (λ subscriber calls. record calls {
              made = record calls.made {
                subscribers = inserted calls.made.subscribers subscriber.it.port;
              };
            }) self.old.calls }
        ensures others { KeepNumbers self.old.calls.made.subscribers self.new.calls.made.subscribers }
        ensures number { IfSome result (λ answer. IfOk answer (λ subscriber.
            (subscriber.number.value ≡ self.old.calls.made.subscribers.next)
            × (value_at self.new.calls.made.subscribers subscriber.number.value ≡ Some subscriber.it.port))) }
        ensures side { (most : StaticConfig)
            → factory.now.it.service.membership.service.description.settings ≡ settings.PublishSubscribe most
            → IfSome result (λ answer. IfOk answer (λ subscriber.
            subscriber.it.side ≡ record {
              buffer_size = unwrap_or (option_map (λ named. max named 1) options.now.buffer_size) most.subscriber_max_buffer_size;
            })) }
    {
        let domain = domain_of(&factory.it);
        let number = Number::given(&self.history);
        typed_calls_are_a_run::<T, U, B, D>();
        typed_service_calls_are_steps::<T, U, B, D>();
        let config = subscriber_config(owner_of(&factory.it), options);
        let answer = create_subscriber(
            &mut self.hub,
            alloc,
            domain,
            config,
            subscriber_handler(options),
        );
        self.history = History::told(&self.history, &factory.number, &answer, &(domain, *options));
        calls::with_number(
            calls::subscriber_of(domain, options, calls::most_waiting(&factory.it), answer),
            number,
        )
    }

    /// Loans a slot of a publisher for these values, writes and sends them: the command `Put`. None, and the command is skipped, if the
    /// publisher isn't open, or a send of it is blocked.
    ///
    /// Refused as the machine refuses it.
    /// Example: `let sent = hub.send_slice(alloc, &publisher, &[7, 8])?;`
    pub fn send_slice(
        &mut self,
        alloc: Global,
        publisher: &Named<slice::Publisher<T, U>>,
        values: &[T],
    ) -> Option<Result<Sent<T, U>, SendError>>
        requires { option_map (λ made. made.port) (value_at self.old.calls.made.publishers publisher.now.number.value)
            ≡ Some publisher.now.it.port }
        ensures sent { self.new.calls ≡ asked_too (command.Put publisher.now.number.value values.now) (told_send result) self.old.calls }
        ensures waits { IfSome result (λ answer. IfOk answer (λ came. elim came [
          | sent.Delivered count ↦ Unit {0}
          | sent.Blocked blocked ↦ blocked.port ≡ publisher.now.it.port
        ])) }
    {
        typed_calls_are_a_run::<T, U, B, D>();
        typed_publisher_calls_are_steps::<T, U, Slice, B, D>();
        let answer = calls::put_if(&mut self.hub, alloc, &publisher.it, values);
        self.history = calls::told_put(&self.history, &publisher.number, &answer, values);
        answer
    }

    /// Tries a blocked send of a publisher again: the command `Retry`. If no send is blocked, the command is skipped, and `blocked` is
    /// handed back.
    ///
    /// Refused as the machine refuses it.
    /// Example: `let sent = hub.retry(&publisher, blocked, 1_000)?;`
    pub fn retry(
        &mut self,
        publisher: &Named<slice::Publisher<T, U>>,
        blocked: BlockedSend<T, U>,
        elapsed_ns: u64,
    ) -> Result<Result<Sent<T, U>, SendError>, BlockedSend<T, U>>
        requires made { option_map (λ made. made.port) (value_at self.old.calls.made.publishers publisher.now.number.value)
            ≡ Some publisher.now.it.port }
        requires waits { blocked.port ≡ publisher.now.it.port }
        ensures sent { self.new.calls ≡ asked_too (command.Retry publisher.now.number.value elapsed_ns) (told_send (result_ok result))
            self.old.calls }
        ensures waits { MatchResult result (λ answer. IfOk answer (λ came. elim came [
          | sent.Delivered count ↦ Unit {0}
          | sent.Blocked waiting ↦ waiting.port ≡ publisher.now.it.port
        ])) (λ back. back ≡ blocked) }
    {
        typed_calls_are_a_run::<T, U, B, D>();
        typed_publisher_calls_are_steps::<T, U, Slice, B, D>();
        let answer = calls::retry_if(&mut self.hub, blocked, elapsed_ns);
        let came = calls::sent_came(&answer);
        self.history = History::told(&self.history, &publisher.number, &came, &elapsed_ns);
        answer
    }

    /// Gives up a blocked send of a publisher: the command `GiveUp`. Returns how many mailboxes took the message; None, and the command is
    /// skipped, if no send is blocked.
    /// Example: `let delivered = hub.give_up(&publisher, blocked)?;`
    pub fn give_up(
        &mut self,
        publisher: &Named<slice::Publisher<T, U>>,
        blocked: BlockedSend<T, U>,
    ) -> Option<usize>
        requires made { option_map (λ made. made.port) (value_at self.old.calls.made.publishers publisher.now.number.value)
            ≡ Some publisher.now.it.port }
        requires waits { blocked.port ≡ publisher.now.it.port }
        ensures given_up { self.new.calls ≡ asked_too (command.GiveUp publisher.now.number.value)
            (option_map_or (λ count. reply.Delivered count) result reply.Skipped) self.old.calls }
    {
        typed_calls_are_a_run::<T, U, B, D>();
        typed_publisher_calls_are_steps::<T, U, Slice, B, D>();
        let answer = calls::give_up_if(&mut self.hub, blocked);
        self.history = History::told(&self.history, &publisher.number, &answer, &());
        answer
    }

    /// Updates the connections of a publisher: the command `Update`. None, and the command is skipped, if the publisher isn't open, or a
    /// send of it is blocked.
    ///
    /// Refused as the machine refuses it.
    /// Example: `let Some(Ok(())) = hub.update_publisher(alloc, &publisher) else { return None; };`
    pub fn update_publisher(
        &mut self,
        alloc: Global,
        publisher: &Named<slice::Publisher<T, U>>,
    ) -> Option<Result<(), ConnectionFailure>>
        requires { option_map (λ made. made.port) (value_at self.old.calls.made.publishers publisher.now.number.value)
            ≡ Some publisher.now.it.port }
        ensures { self.new.calls ≡ answered_as result (command.Update (port_number.Publisher publisher.now.number.value))
            (λ done. reply.Done) refusal.Connection (λ done calls. calls) self.old.calls }
    {
        typed_calls_are_a_run::<T, U, B, D>();
        typed_publisher_calls_are_steps::<T, U, Slice, B, D>();
        let answer = calls::update_publisher_if(&mut self.hub, alloc, &publisher.it);
        self.history = History::told(&self.history, &publisher.number, &answer, &());
        answer
    }

    /// Updates the connections of a subscriber: the command `Update`. None, and the command is skipped, if the subscriber isn't open, which
    /// `AreFollowed` excludes.
    ///
    /// Refused as the machine refuses it.
    /// Example: `let Some(Ok(())) = hub.update_subscriber(alloc, &subscriber) else { return None; };`
    pub fn update_subscriber(
        &mut self,
        alloc: Global,
        subscriber: &Named<slice::Subscriber<T, U>>,
    ) -> Option<Result<(), ConnectionFailure>>
        requires { value_at self.old.calls.made.subscribers subscriber.now.number.value ≡ Some subscriber.now.it.port }
        ensures updated { self.new.calls ≡ answered_as result (command.Update (port_number.Subscriber subscriber.now.number.value))
            (λ done. reply.Done) refusal.Connection (λ done calls. calls) self.old.calls }
        ensures stands { (handed : Handed B D) → AreFollowed B.fixed (λ handlers. B.degrades handlers)
            (λ handlers. B.decides handlers) D.fixed (λ handler. D.degrades handler) handed
            self.old.calls → IsSome result }
    {
        typed_calls_are_a_run::<T, U, B, D>();
        typed_subscriber_calls_are_steps::<T, U, Slice, B, D>();
        what_is_held_may_be_used::<T, U, B, D>();
        let answer = calls::update_subscriber_if(&mut self.hub, alloc, &subscriber.it);
        self.history = History::told(&self.history, &subscriber.number, &answer, &());
        answer
    }

    /// Whether messages wait for a subscriber, after an update of its connections: the command `Has`. None, and the command is skipped, if
    /// the subscriber isn't open, which `AreFollowed` excludes.
    ///
    /// Refused as the machine refuses it.
    /// Example: `let Some(Ok(has)) = hub.has_samples(alloc, &subscriber) else { return None; };`
    pub fn has_samples(
        &mut self,
        alloc: Global,
        subscriber: &Named<slice::Subscriber<T, U>>,
    ) -> Option<Result<bool, ConnectionFailure>>
        requires { value_at self.old.calls.made.subscribers subscriber.now.number.value ≡ Some subscriber.now.it.port }
        ensures told { self.new.calls ≡ answered_as result (command.Has subscriber.now.number.value) (λ has. reply.Has has)
            refusal.Connection (λ has calls. calls) self.old.calls }
        ensures stands { (handed : Handed B D) → AreFollowed B.fixed (λ handlers. B.degrades handlers)
            (λ handlers. B.decides handlers) D.fixed (λ handler. D.degrades handler) handed
            self.old.calls → IsSome result }
    {
        typed_calls_are_a_run::<T, U, B, D>();
        typed_subscriber_calls_are_steps::<T, U, Slice, B, D>();
        what_is_held_may_be_used::<T, U, B, D>();
        let answer = calls::has_samples_if(&mut self.hub, alloc, &subscriber.it);
        self.history = History::told(&self.history, &subscriber.number, &answer, &());
        answer
    }

    /// Receives the next message of a subscriber, if one waits: the command `Receive`. None, and the command is skipped, if the subscriber
    /// isn't open, which `AreFollowed` excludes. Other samples keep their numbers.
    ///
    /// Refused as the machine refuses it.
    /// Example: `let Some(Ok(Some(sample))) = hub.receive(alloc, &subscriber) else { return None; };`
    pub fn receive(
        &mut self,
        alloc: Global,
        subscriber: &Named<slice::Subscriber<T, U>>,
    ) -> Option<Result<Option<Named<slice::Sample<T, U>>>, ReceiveError>>
        requires { value_at self.old.calls.made.subscribers subscriber.now.number.value ≡ Some subscriber.now.it.port }
        ensures received { IsReceived self.new.newest subscriber.now.number.value result self.old.calls self.new.calls }
        ensures others { KeepNumbers self.old.calls.made.samples self.new.calls.made.samples }
        ensures number { IfSome result (λ answer. IfOk answer (λ some. IfSome some (λ sample.
            (sample.number.value ≡ self.old.calls.made.samples.next)
            × (value_at self.new.calls.made.samples sample.number.value
            ≡ Some (record { port = sample.it.port; taken = sample.it.taken }))))) }
        ensures stands { (handed : Handed B D) → AreFollowed B.fixed (λ handlers. B.degrades handlers)
            (λ handlers. B.decides handlers) D.fixed (λ handler. D.degrades handler) handed
            self.old.calls → IsSome result }
    {
        typed_calls_are_a_run::<T, U, B, D>();
        typed_subscriber_calls_are_steps::<T, U, Slice, B, D>();
        what_is_held_may_be_used::<T, U, B, D>();
        let number = Number::given(&self.history);
        let answer = calls::receive_if(&mut self.hub, alloc, &subscriber.it);
        self.fit = calls::newest_is_known(self.fit, &answer, &self.hub);
        self.history = calls::told_received(&self.history, &subscriber.number, &answer, &self.hub);
        calls::received_with_number(answer, number)
    }

    /// The values of a sample that is held: the answer to the command `Read`. A publisher of the subscriber's own service began to send
    /// them earlier, by a put or as a loan. None if the sample isn't held; under the premises of `AreFollowed` it is held, even if ports
    /// were closed. No call is recorded.
    /// Example: `let values = hub.payload(&sample)?;`
    pub fn payload(&self, sample: &Named<slice::Sample<T, U>>) -> Option<&[T]>
        requires { value_at self.now.calls.made.samples sample.now.number.value
            ≡ Some (record { port = sample.now.it.port; taken = sample.now.it.taken }) }
        ensures gives { IfSome result (λ values. sample.now.number.value + 1 ≡ self.now.calls.made.samples.next
            → values.now ≡ self.now.newest) }
        ensures reads { IfSome result (λ values. (handed : Handed B D) → AreFollowed B.fixed (λ handlers. B.degrades handlers)
            (λ handlers. B.decides handlers) D.fixed (λ handler. D.degrades handler) handed
            (record self.now.calls { asked = self.now.calls.asked ++ command.Read sample.now.number.value ∷ [] })
            → length values.now < 2 ^ 63 → (told : Vec T) × (vec_items told ≡ values.now)
            × Answers (types_of T.name T.size T.alignment U.name U.size U.alignment)
            (chosen_by T.is_default (λ handlers. B.decides handlers) (λ handlers. B.degrades handlers) (λ handler. D.degrades handler)
            handed) self.now.calls.config.expired_connection_buffer
            (self.now.calls.asked ++ command.Read sample.now.number.value ∷ []) false
            (self.now.calls.answers ++ reply.Values told ∷ [])) }
        ensures sent { IfSome result (λ values. (handed : Handed B D) → AreFollowed B.fixed (λ handlers. B.degrades handlers)
            (λ handlers. B.decides handlers) D.fixed (λ handler. D.degrades handler) handed
            (record self.now.calls { asked = self.now.calls.asked ++ command.Read sample.now.number.value ∷ [] })
            → length values.now < 2 ^ 63 → WasSentBefore (types_of T.name T.size T.alignment U.name U.size U.alignment)
            (chosen_by T.is_default (λ handlers. B.decides handlers) (λ handlers. B.degrades handlers) (λ handler. D.degrades handler)
            handed) self.now.calls.config.expired_connection_buffer sample.now.number.value values.now
            self.now.calls.asked self.now.calls.answers) }
        ensures held { (handed : Handed B D) → AreFollowed B.fixed (λ handlers. B.degrades handlers)
            (λ handlers. B.decides handlers) D.fixed (λ handler. D.degrades handler) handed
            self.now.calls → IsSome result }
    {
        typed_calls_are_a_run::<T, U, B, D>();
        typed_subscriber_calls_are_steps::<T, U, Slice, B, D>();
        what_is_held_may_be_used::<T, U, B, D>();
        received_was_sent::<T, B, D>();
        samples_read_the_same::<T, B, D>();
        if !sample.it.holds(&self.hub) {
            return None;
        }
        Some(sample.it.payload(&self.hub))
    }

    /// The sequence number of the message of a sample that is held, if its service numbers messages: the answer to the command `Sequence`.
    /// None if the sample isn't held; under the premises of `AreFollowed` it is held, even if ports were closed. No call is recorded.
    /// Example: `let number = hub.sequence(&sample)?;`
    pub fn sequence(&self, sample: &Named<slice::Sample<T, U>>) -> Option<Option<u64>>
        requires { value_at self.now.calls.made.samples sample.now.number.value
            ≡ Some (record { port = sample.now.it.port; taken = sample.now.it.taken }) }
        ensures tells { IfSome result (λ sequence. (handed : Handed B D) → AreFollowed B.fixed (λ handlers. B.degrades handlers)
            (λ handlers. B.decides handlers) D.fixed (λ handler. D.degrades handler) handed
            (record self.now.calls { asked = self.now.calls.asked ++ command.Sequence sample.now.number.value ∷ [] })
            → Answers (types_of T.name T.size T.alignment U.name U.size U.alignment)
            (chosen_by T.is_default (λ handlers. B.decides handlers) (λ handlers. B.degrades handlers) (λ handler. D.degrades handler)
            handed) self.now.calls.config.expired_connection_buffer
            (self.now.calls.asked ++ command.Sequence sample.now.number.value ∷ []) false
            (self.now.calls.answers ++ reply.Sequence sequence ∷ [])) }
        ensures held { (handed : Handed B D) → AreFollowed B.fixed (λ handlers. B.degrades handlers)
            (λ handlers. B.decides handlers) D.fixed (λ handler. D.degrades handler) handed
            self.now.calls → IsSome result }
    {
        typed_calls_are_a_run::<T, U, B, D>();
        what_is_held_may_be_used::<T, U, B, D>();
        if !sample.it.holds(&self.hub) {
            return None;
        }
        Some(sample.it.header(&self.hub).sequence)
    }

    /// Releases a sample: the command `Release`. The command is recorded as done, and the sample's number names nothing any longer. Returns
    /// whether the sample was held; it was, under `AreFollowed`, whichever ports were closed.
    /// Example: `hub.release(sample);`
    pub fn release(&mut self, sample: Named<slice::Sample<T, U>>) -> bool
        requires { value_at self.old.calls.made.samples sample.number.value
            ≡ Some (record { port = sample.it.port; taken = sample.it.taken }) }
        ensures released { self.new.calls ≡ record (asked_too (command.Release sample.number.value) reply.Done self.old.calls) {
          made = record self.old.calls.made { samples = removed self.old.calls.made.samples sample.number.value };
        } }
        ensures held { (handed : Handed B D) → AreFollowed B.fixed (λ handlers. B.degrades handlers)
            (λ handlers. B.decides handlers) D.fixed (λ handler. D.degrades handler) handed
            self.old.calls → result ≡ true }
    {
        typed_calls_are_a_run::<T, U, B, D>();
        typed_subscriber_calls_are_steps::<T, U, Slice, B, D>();
        what_is_held_may_be_used::<T, U, B, D>();
        let Named { it, number } = sample;
        let was_held = calls::release_if(&mut self.hub, it);
        self.history = History::told(&self.history, &number, &was_held, &());
        was_held
    }

    /// Closes a subscriber: the command `Leave`. It is handed back if it isn't open.
    /// Example: `let stays = hub.end_subscriber(subscriber).err();`
    pub fn end_subscriber(
        &mut self,
        subscriber: Named<slice::Subscriber<T, U>>,
    ) -> Result<(), Named<slice::Subscriber<T, U>>>
        requires { value_at self.old.calls.made.subscribers subscriber.number.value ≡ Some subscriber.it.port }
        ensures back { IfErr result (λ back. back ≡ subscriber) }
        ensures left { MatchResult result
            (λ done. self.new.calls
            ≡ record (asked_too (command.Leave (port_number.Subscriber subscriber.number.value)) reply.Done self.old.calls) {
              made = record self.old.calls.made { subscribers = removed self.old.calls.made.subscribers subscriber.number.value };
            })
            (λ back. self.new.calls
            ≡ asked_too (command.Leave (port_number.Subscriber subscriber.number.value)) reply.Skipped self.old.calls) }
    {
        typed_calls_are_a_run::<T, U, B, D>();
        typed_subscriber_calls_are_steps::<T, U, Slice, B, D>();
        let Named { it, number } = subscriber;
        let left = it.drop_with(&mut self.hub);
        let gone = calls::has_left(&left);
        self.history = History::told(&self.history, &number, &gone, &());
        calls::back_with_number(left, number)
    }

    /// Closes a publisher: the command `Leave`. It is handed back if it isn't open, or a send of it is blocked.
    /// Example: `let stays = hub.end_publisher(publisher).err();`
    pub fn end_publisher(
        &mut self,
        publisher: Named<slice::Publisher<T, U>>,
    ) -> Result<(), Named<slice::Publisher<T, U>>>
        requires { option_map (λ made. made.port) (value_at self.old.calls.made.publishers publisher.number.value)
            ≡ Some publisher.it.port }
        ensures back { IfErr result (λ back. back ≡ publisher) }
        ensures left { MatchResult result
            (λ done. self.new.calls
            ≡ record (asked_too (command.Leave (port_number.Publisher publisher.number.value)) reply.Done self.old.calls) {
              made = record self.old.calls.made { publishers = removed self.old.calls.made.publishers publisher.number.value };
            })
            (λ back. self.new.calls
            ≡ asked_too (command.Leave (port_number.Publisher publisher.number.value)) reply.Skipped self.old.calls) }
    {
        typed_calls_are_a_run::<T, U, B, D>();
        typed_publisher_calls_are_steps::<T, U, Slice, B, D>();
        let Named { it, number } = publisher;
        let left = it.drop_with(&mut self.hub);
        let gone = calls::has_left(&left);
        self.history = History::told(&self.history, &number, &gone, &());
        calls::back_with_number(left, number)
    }
}
