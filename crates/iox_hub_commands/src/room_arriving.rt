//! How ports are created, after capacity was made for the numbers of the loans and samples that they may have.
ghost use Rattle.std.specs.Prelude.{◌≡◌, ◌+◌, ◌<◌, ◌^◌, true};
ghost use Rattle.iox_hub_base.specs.AsHome.{hub_ports};
ghost use Rattle.iox_hub_commands.specs.Arriving.{no_publisher_comes, no_subscriber_comes};
ghost use Rattle.iox_hub_commands.specs.Naming.{most_loans, publisher_config, subscriber_config};
ghost use Rattle.iox_hub_commands.specs.PortRoom.{GrowsFor, KeepsRoom, most_samples_at, most_samples_from};
ghost use Rattle.iox_hub_commands.specs.Services.{PublisherArrives, SubscriberArrives};

use crate::numbered_hub::NumberedHub;
use crate::{arriving, most_loans};
use iox_command::{PublisherOptions, Reply, SubscriberOptions};
use iox_domain::DomainId;
use iox_domain_values::{Decides, Degrades, PortOwner};
use std::alloc::Global;

impl<T: Copy, U: Copy + Default, B: Decides + Degrades, D: Degrades> NumberedHub<T, U, B, D> {
    /// Creates a publisher of slices in a domain, with what the options name, and gives it the next number; `handlers` are its handlers.
    /// Skipped if the domain isn't in the hub; otherwise refused as `Made::make_publisher` refuses it, also if an allocation fails for the
    /// numbers of its loans, or of its samples that may be held. A publisher that is skipped, or refused however much memory there is,
    /// reserves nothing. The capacity for numbers grows at most to twice as many as are in use and as the existing ports and this one may
    /// need, plus one for each factory, and one more.
    /// Example: `let reply = hub.publisher_with(alloc, domain, owner, &options, handlers);`
    pub fn publisher_with(
        &mut self,
        alloc: Global,
        domain: DomainId,
        owner: PortOwner,
        options: &PublisherOptions,
        handlers: B,
    ) -> Reply<T>
        requires { self.old.made.publishers.next + 1 < 2 ^ 64 }
        ensures room { KeepsRoom self.old self.new }
        ensures comes { PublisherArrives U.is_default (λ handlers. B.degrades handlers) domain owner options.now handlers self.old
            result self.new }
        ensures refused { no_publisher_comes (publisher_config owner options.now) (hub_ports domain self.old.hub) ≡ true
            → self.new ≡ self.old }
        ensures grows { GrowsFor (most_loans options.now) (most_samples_from domain self.old) self.old self.new }
    {
        if arriving::refuses_publisher(&self.hub, domain, owner, options) {
            return arriving::publisher_refused(&self.hub, domain, owner, options);
        }
        if self
            .pledge_for_publisher(domain, most_loans(options) as u64)
            .is_err()
        {
            return arriving::publisher_refused(&self.hub, domain, owner, options);
        }
        arriving::publisher(
            alloc,
            &mut self.made,
            &mut self.hub,
            domain,
            owner,
            options,
            handlers,
        )
    }
}

impl<T: Copy, U: Copy, B: Decides + Degrades, D: Degrades> NumberedHub<T, U, B, D> {
    /// Creates a subscriber in a domain, with what the options name, and gives it the next number; `handler` is its handler. Skipped if the
    /// domain isn't in the hub; otherwise refused as `Made::make_subscriber` refuses it, also if an allocation fails for the numbers of its
    /// samples. A subscriber that is skipped, or refused however much memory there is, reserves nothing. The capacity for numbers grows at
    /// most to twice as many as are in use and as the existing ports and this one may need, plus one for each factory, and one more.
    /// Example: `let reply = hub.subscriber_with(alloc, domain, owner, &options, handler);`
    pub fn subscriber_with(
        &mut self,
        alloc: Global,
        domain: DomainId,
        owner: PortOwner,
        options: &SubscriberOptions,
        handler: D,
    ) -> Reply<T>
        requires { self.old.made.subscribers.next + 1 < 2 ^ 64 }
        ensures room { KeepsRoom self.old self.new }
        ensures comes { SubscriberArrives (λ handler. D.degrades handler) domain owner options.now handler self.old result self.new }
        ensures refused { no_subscriber_comes (subscriber_config owner options.now) (hub_ports domain self.old.hub) ≡ true
            → self.new ≡ self.old }
        ensures grows { GrowsFor 0 (most_samples_at domain self.old) self.old self.new }
    {
        if arriving::refuses_subscriber(&self.hub, domain, owner, options) {
            return arriving::subscriber_refused(&self.hub, domain, owner, options);
        }
        if self.pledge_samples(self.most_samples(domain)).is_err() {
            return arriving::subscriber_refused(&self.hub, domain, owner, options);
        }
        arriving::subscriber(
            alloc,
            &mut self.made,
            &mut self.hub,
            domain,
            owner,
            options,
            handler,
        )
    }
}
