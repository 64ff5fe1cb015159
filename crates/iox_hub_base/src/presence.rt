//! A domain that is in the hub, or its agreement while it is out.
ghost use Rattle.std.specs.Prelude.{◌≡◌, ◌↔◌, ◌-◌, ◌^◌, IsSome, IsTrue, Some, min, option_copied};
ghost use Rattle.std.specs.Borrow.{sem};
ghost use Rattle.iox_hub_base.specs.Open.{here, taken_out};
ghost use Rattle.iox_hub_base.specs.Agreeing.{same_agreement};
ghost use Rattle.iox_hub_base.specs.Room.{counted_at};
ghost use Rattle.iox_domain.specs.Loans.{loans_left};
ghost use Rattle.iox_domain.specs.Samples.{samples_at_most};
ghost use Rattle.iox_hub_base.specs.declared.presence.Presence.TheVariants.{Out};

use iox_describe_settings::publish_subscribe::StaticConfig;
use iox_domain::Domain;
use iox_domain::allowances::{loans, samples};
use iox_domain::ports::ServicePorts;
use iox_domain_values::{DegradationHandler, Handlers};
use std::mem;

/// An open service: its domain, or its nodes' agreement while the domain is out.
#[derive(Drop)]
pub enum Presence<T, U, B = Handlers, D = DegradationHandler> {
    /// The domain is in the hub.
    Here(Domain<T, U, B, D>),
    /// The user took the domain out, to drive it elsewhere; its agreement stays.
    Out(StaticConfig),
}

impl<T, U, B, D> Presence<T, U, B, D> {
    ghost use Rattle.iox_hub_base.specs.Lends.{LendsDomain};

    /// The domain, if it is in the hub.
    /// Example: `let domain = presence.domain()?;`
    pub fn domain(&self) -> Option<&Domain<T, U, B, D>>
        ensures { option_copied result ≡ here self.now }
    {
        match self {
            Presence::Here(domain) => Some(domain),
            Presence::Out(_) => None,
        }
    }

    /// The domain, which is in the hub, to be changed in its place.
    /// Example: `let domain = presence.domain_mut();`
    pub fn domain_mut(&mut self) -> &mut Domain<T, U, B, D>
        requires { IsSome (here self.old) }
        ensures* writes_back { sem 𝓛 (LendsDomain T.row U.row B.row D.row self.entry result) }
        ensures value { here self.old ≡ Some result.now }
    {
        match self {
            Presence::Here(domain) => domain,
            Presence::Out(_) => unreachable!(),
        }
    }

    /// Whether the domain is out with exactly this agreement.
    /// Example: `let is_awaited = presence.awaits(&domain.agreed);`
    pub fn awaits(&self, agreed: &StaticConfig) -> bool
        ensures { IsTrue result ↔ (self.now ≡ Out agreed.now) }
    {
        match self {
            Presence::Here(_) => false,
            Presence::Out(awaited) => is_same(awaited, agreed),
        }
    }

    /// Takes the domain out, if it is in the hub; its agreement stays.
    pub fn take(&mut self) -> Option<Domain<T, U, B, D>>
        ensures domain { result ≡ here self.old }
        ensures new { self.new ≡ taken_out self.old }
    {
        let agreed = match self {
            Presence::Here(domain) => domain.agreed,
            Presence::Out(agreed) => *agreed,
        };
        match mem::replace(self, Presence::Out(agreed)) {
            Presence::Here(domain) => Some(domain),
            Presence::Out(_) => None,
        }
    }
}

impl<T: Copy, U: Copy, B, D> Presence<T, U, B, D> {
    /// How many loans the publishers of the domain may still make; 0 if the domain is out. At most 2^64 - 1.
    /// Example: `let loans = presence.loans_left();`
    pub fn loans_left(&self) -> u64
        ensures { result ≡ min (counted_at (λ ports. loans_left ports) self.now) (2 ^ 64 - 1) }
    {
        match self {
            Presence::Here(domain) => loans::loans_left(&domain.state.ports),
            Presence::Out(_) => 0,
        }
    }

    /// How many samples the subscribers of the domain may hold at once; 0 if the domain is out. At most 2^64 - 1.
    /// Example: `let samples = presence.samples_at_most();`
    pub fn samples_at_most(&self) -> u64
        ensures { result ≡ min (counted_at (λ ports. samples_at_most ports) self.now) (2 ^ 64 - 1) }
    {
        match self {
            Presence::Here(domain) => most_samples(&domain.state.ports),
            Presence::Out(_) => 0,
        }
    }
}

// How many samples the subscribers of a service may hold at once. Without publishers none, so that it counts no subscribers then.
#[tactic(auto, using(crate::proofs::Held::none_held))]
fn most_samples<T: Copy, U: Copy>(ports: &ServicePorts<T, U>) -> u64
    ensures { result ≡ min (samples_at_most ports.now) (2 ^ 64 - 1) }
{
    if samples::held_by_one(ports) == 0 {
        return 0;
    }
    samples::samples_at_most(ports)
}

// Whether two agreements are the same.
fn is_same(a: &StaticConfig, b: &StaticConfig) -> bool
    ensures { result ≡ same_agreement a.now b.now }
{
    a == b
}
