//! What a publisher does at a full mailbox if no handler decides.
ghost use Rattle.std.specs.Prelude.{◌≡◌, IfOk, IfSome, IfNone};
ghost use Rattle.serde.specs.Event.{Logs, text};
ghost use Rattle.serde.specs.Steps.{Gives};
ghost use Rattle.iox_domain_values.specs.Strategy.{strategy_name};
ghost use Rattle.iox_domain_values.specs.declared.backpressure_strategy.BackpressureStrategy.{BackpressureStrategy};
ghost use Rattle.iox_domain_values.specs.declared.backpressure_strategy.BackpressureStrategy.TheVariants as strategy;

use serde::{
    Described, Deserialize, DeserializeOwned, Deserializer, Format, Serialize, Serializer,
};
use std::alloc::Global;

/// What a publisher does at a full mailbox if the service doesn't overflow and no handler decides.
///
/// Ported from `iceoryx2::port::backpressure_strategy::BackpressureStrategy`.
#[derive(Clone, Copy, Debug, PartialEq, Eq)]
pub enum BackpressureStrategy {
    /// The send blocks until the mailbox has capacity for the message.
    RetryUntilDelivered,
    /// The send skips this mailbox.
    DiscardData,
}

impl BackpressureStrategy {
    /// The variant's name, which is also its text form.
    pub fn name(&self) -> &'static str
        ensures { result.now ≡ strategy_name self.now }
    {
        match self {
            BackpressureStrategy::RetryUntilDelivered => "RetryUntilDelivered",
            BackpressureStrategy::DiscardData => "DiscardData",
        }
    }

    /// The variant with this name, if there is one.
    pub fn from_name(name: &str) -> Option<Self>
        ensures named { IfSome result (λ strategy. strategy_name strategy ≡ name.now) }
        ensures unnamed { IfNone result ((strategy : BackpressureStrategy) → strategy_name strategy ≡ name.now → ⊥) }
    {
        match name {
            "RetryUntilDelivered" => Some(BackpressureStrategy::RetryUntilDelivered),
            "DiscardData" => Some(BackpressureStrategy::DiscardData),
            _ => None,
        }
    }
}

/// The strategy of a publisher for which none is set.
impl Default for BackpressureStrategy {
    ghost is_default = { λ made. made ≡ strategy.RetryUntilDelivered };

    fn default() -> Self {
        BackpressureStrategy::RetryUntilDelivered
    }
}

/// The variant's name is written, and nothing else.
impl Described for BackpressureStrategy {
    ghost writes = { λ strategy old new. Logs old new (text (strategy_name strategy)) };
}

impl Serialize for BackpressureStrategy {
    fn serialize<S: Serializer>(&self, out: &mut S) -> Result<(), S::Error> {
        out.str(self.name())
    }
}

/// A value that isn't a text is refused, and so is a text that isn't a variant's name.
impl DeserializeOwned for BackpressureStrategy {
    fn deserialize_owned<F: Format>(
        alloc: Global,
        from: &mut Deserializer<'_, '_, F>,
    ) -> Result<Self, F::Error>
        ensures { IfOk result (λ strategy. Gives F.gives from.old (text (strategy_name strategy)) from.new) }
    {
        let read = from.string(alloc)?;
        match BackpressureStrategy::from_name(read.as_str()) {
            Some(strategy) => Ok(strategy),
            None => Err(from.custom("neither RetryUntilDelivered nor DiscardData")),
        }
    }
}

impl<'de> Deserialize<'de> for BackpressureStrategy {
    fn deserialize<F: Format>(
        alloc: Global,
        from: &mut Deserializer<'de, '_, F>,
    ) -> Result<Self, F::Error>
        ensures { IfOk result (λ strategy. Gives F.gives from.old (text (strategy_name strategy)) from.new) }
    {
        DeserializeOwned::deserialize_owned(alloc, from)
    }
}
