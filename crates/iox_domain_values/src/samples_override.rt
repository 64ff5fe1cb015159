//! How many slots a publisher gets.
ghost use Rattle.std.specs.Prelude.{◌≡◌, ◌≤◌, ℕ};
ghost use Rattle.iox_domain_values.specs.OverrideAnswers.{Allowed, places};
ghost use Rattle.iox_domain_values.specs.declared.samples_override.PreallocatedSamplesOverride.TheVariants as chosen;

/// An object that decides how many slots a publisher gets.
///
/// For each number of slots that the worst case needs, the object states which numbers it may answer (`allows`), and a call
/// answers one of these. State that it keeps from call to call must be in cells.
pub trait PreallocatedSamplesFn: Drop {
    ghost allows: { Self → ℕ → ℕ → Type 0 };

    /// How many slots the publisher gets if the worst case needs `worst_case` slots.
    fn call(&self, worst_case: usize) -> usize
        ensures { allows self.now worst_case result };
}

/// What decides how many slots a publisher gets. For each number of slots that the worst case needs, it states which numbers it
/// may answer.
pub trait Overrides: Drop {
    ghost overrides: { Self → ℕ → ℕ → Type 0 };

    /// A number that may be answered if the worst case needs `worst_case` slots. It may be 0, or above the worst case.
    fn number(&self, worst_case: usize) -> usize
        ensures { overrides self.now worst_case result };
}

/// How many slots a publisher gets: as many as the worst case needs, a fixed number, or what an object answers that the caller
/// made.
///
/// Ported from `iceoryx2::service::port_factory::publisher::PreallocatedSamplesOverride`.
#[derive(Drop)]
pub enum PreallocatedSamplesOverride {
    /// As many as the worst case needs.
    WorstCase,
    /// This number.
    Fixed(usize),
    /// The number that the object answers.
    Boxed(Box<dyn PreallocatedSamplesFn>),
}

impl PreallocatedSamplesOverride {
    /// An override that answers this number each time.
    pub fn new_with(number: usize) -> Self
        ensures { result ≡ chosen.Fixed number }
    {
        PreallocatedSamplesOverride::Fixed(number)
    }

    /// An override that answers what the object answers.
    pub fn boxed(object: Box<dyn PreallocatedSamplesFn>) -> Self
        ensures { result ≡ chosen.Boxed object }
    {
        PreallocatedSamplesOverride::Boxed(object)
    }
}

impl Overrides for PreallocatedSamplesOverride {
    ghost overrides = { Allowed (λ object. (PreallocatedSamplesFn-box object).allows object.value) };

    fn number(&self, worst_case: usize) -> usize {
        match self {
            PreallocatedSamplesOverride::WorstCase => worst_case,
            PreallocatedSamplesOverride::Fixed(number) => *number,
            PreallocatedSamplesOverride::Boxed(object) => object.call(worst_case),
        }
    }
}

/// How many slots a publisher gets if the worst case needs `worst_case` slots: a number that `overriding` may answer, but at
/// least 1 and at most the worst case.
pub fn number_of_places<O: Overrides>(overriding: &O, worst_case: usize) -> usize
    requires { 1 ≤ worst_case }
    ensures number { (answer : ℕ) × O.overrides overriding.now worst_case answer × (result ≡ places worst_case answer) }
    ensures least { 1 ≤ result }
    ensures most { result ≤ worst_case }
{
    overriding.number(worst_case).clamp(1, worst_case)
}

/// The choice of a publisher for which none is made: as many slots as the worst case needs.
impl Default for PreallocatedSamplesOverride {
    ghost is_default = { λ made. made ≡ chosen.WorstCase };

    fn default() -> Self {
        PreallocatedSamplesOverride::WorstCase
    }
}
