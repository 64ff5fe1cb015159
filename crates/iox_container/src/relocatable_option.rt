//! An option with a memory layout of its own, which the compiler doesn't choose.
ghost use Rattle.std.specs.Prelude.{◌≡◌, ◌↔◌, Bool, IsTrue, IsSome, IsNone, IfSome, IfNone, MatchOption, MatchBool, IsSomeAnd, unwrap_or};
ghost use Rattle.std.specs.Prelude.{Some, None};
ghost use Rattle.std.specs.Fn.{FnOnceReturnsAt, FnOnceTakesAt, FnOnceTakesAtMut};
ghost use Rattle.std.specs.Option.{ForSome, ForNone, option_copied, option_copied_mut, UnwrapsOrElse};
ghost use Rattle.std.specs.Borrow.{MutBor, sem};
ghost use Rattle.serde.specs.Event.{WritesOption};
ghost use Rattle.iox_container.specs.RelocatableOptions.{option_of};

use serde::{
    Described, Deserialize, DeserializeOwned, Deserializer, Format, Serialize, Serializer,
};
use std::alloc::Global;
use std::mem;
use std::ops::{AsDeref, DerefMut};

/// A value, or none.
///
/// Contracts see it as the equivalent `Option`, `option_of`. Each method does what the method of `Option` with the same name does.
///
/// Ported from `iceoryx2_bb_container::relocatable_option::RelocatableOption`.
#[derive(Clone, Copy, Debug, PartialEq, Eq, Drop)]
pub enum RelocatableOption<T> {
    /// No value.
    None,

    /// A value.
    Some(T),
}

impl<T> RelocatableOption<T> {
    ghost use Rattle.iox_container.specs.RelocatableOptionLends.{LendsValue};

    /// The equivalent `Option`.
    pub fn to_option(self) -> Option<T>
        ensures { result ≡ option_of self }
    {
        match self {
            RelocatableOption::None => None,
            RelocatableOption::Some(value) => Some(value),
        }
    }

    /// A reference to the value, if there is one.
    pub fn as_option_ref(&self) -> Option<&T>
        ensures { option_copied result ≡ option_of self.now }
    {
        match self {
            RelocatableOption::None => None,
            RelocatableOption::Some(value) => Some(value),
        }
    }

    /// The value for modification in place, if there is one.
    pub fn as_option_mut(&mut self) -> Option<&mut T>
        ensures* writes_back { sem 𝓛 (LendsValue T.row self.entry result) }
        ensures value { option_copied_mut result ≡ option_of self.old }
    {
        match self {
            RelocatableOption::None => None,
            RelocatableOption::Some(value) => Some(value),
        }
    }

    /// A reference to the value, if there is one.
    pub fn as_ref(&self) -> RelocatableOption<&T>
        ensures { option_copied (option_of result) ≡ option_of self.now }
    {
        RelocatableOption::from(self.as_option_ref())
    }

    /// The value for modification in place, if there is one.
    pub fn as_mut(&mut self) -> RelocatableOption<&mut T>
        ensures* writes_back { sem 𝓛 (LendsValue T.row self.entry (option_of result)) }
        ensures value { option_copied_mut (option_of result) ≡ option_of self.old }
    {
        match self {
            RelocatableOption::None => RelocatableOption::None,
            RelocatableOption::Some(value) => RelocatableOption::Some(value),
        }
    }

    /// The target of the value's dereference, if there is a value.
    pub fn as_deref<'a>(&'a self) -> RelocatableOption<T::Shown>
    where
        T: AsDeref<'a>,
        ensures { MatchOption (option_of self.now) (option_of result ≡ None) (λ x. IsSomeAnd (option_of result) (T.as_deref_gives x)) }
    {
        match self {
            RelocatableOption::Some(value) => RelocatableOption::Some(value.shown()),
            RelocatableOption::None => RelocatableOption::None,
        }
    }

    /// The target of the value's dereference for modification in place, if there is a value.
    ///
    /// The contract says what the reference shows at first. It doesn't say what a write through the reference leaves, since `DerefMut` says
    /// nothing of it for a type in general.
    pub fn as_deref_mut(&mut self) -> RelocatableOption<&mut T::Target>
    where
        T: DerefMut,
        ensures { MatchOption (option_of self.old) (option_of result
            ≡ None) (λ x. IsSomeAnd (option_of result) (λ y. T.deref_mut_gives x y.now)) }
    {
        match self {
            RelocatableOption::Some(value) => RelocatableOption::Some(value.deref_mut()),
            RelocatableOption::None => RelocatableOption::None,
        }
    }

    /// Whether there is no value.
    pub fn is_none(&self) -> bool
        ensures { IsTrue result ↔ IsNone (option_of self.now) }
    {
        self.as_option_ref().is_none()
    }

    /// Whether there is a value.
    pub fn is_some(&self) -> bool
        ensures { IsTrue result ↔ IsSome (option_of self.now) }
    {
        self.as_option_ref().is_some()
    }

    /// Calls `f` with the value, if there is one.
    pub fn inspect<F: FnOnce(&T)>(self, f: F) -> Self
        requires { ForSome (option_of self) (FnOnceTakesAt F.FnOnce f) }
        ensures value { result ≡ self }
        ensures called { IfSome (option_of self) (λ x. FnOnceReturnsAt F.FnOnce f x tt) }
    {
        RelocatableOption::from(self.to_option().inspect(f))
    }

    /// The result of `f` applied to the value, if there is one.
    pub fn map<U, F: FnOnce(T) -> U>(self, f: F) -> RelocatableOption<U>
        requires { ForSome (option_of self) (F.pre f) }
        ensures { MatchOption (option_of self) (option_of result ≡ None) (λ x. IsSomeAnd (option_of result) (F.post f x)) }
    {
        RelocatableOption::from(self.to_option().map(f))
    }

    /// Replaces the content by a value, and returns the content before.
    pub fn replace(&mut self, value: T) -> RelocatableOption<T>
        ensures before { result ≡ self.old }
        ensures after { option_of self.new ≡ Some value }
    {
        mem::replace(self, RelocatableOption::Some(value))
    }

    /// Takes the value out, if there is one.
    pub fn take(&mut self) -> RelocatableOption<T>
        ensures before { result ≡ self.old }
        ensures after { option_of self.new ≡ None }
    {
        mem::replace(self, RelocatableOption::None)
    }

    /// Takes the value out if there is one and `predicate`, which may change the value, returns true.
    pub fn take_if<P: FnOnce(&mut T) -> bool>(&mut self, predicate: P) -> RelocatableOption<T>
        requires { ForSome (option_of self.old) (FnOnceTakesAtMut P.FnOnce predicate) }
        ensures none { IfNone (option_of self.old) ((option_of result ≡ None) × (option_of self.new ≡ None)) }
        ensures some { IfSome (option_of self.old) (λ x. (p q : MutBor T) × (b : Bool) × (p.now ≡ x) × P.post predicate p b q
            × MatchBool b ((option_of result ≡ Some q.now) × (option_of self.new ≡ None))
            ((option_of result ≡ None) × (option_of self.new ≡ Some q.now))) }
    {
        match self {
            RelocatableOption::Some(value) => {
                if predicate(value) {
                    self.take()
                } else {
                    RelocatableOption::None
                }
            }
            RelocatableOption::None => RelocatableOption::None,
        }
    }

    /// The value, or `default`.
    pub fn unwrap_or(self, default: T) -> T
    where
        T: Drop,
        ensures { result ≡ unwrap_or (option_of self) default }
    {
        self.to_option().unwrap_or(default)
    }

    /// The value, or what `f` returns.
    pub fn unwrap_or_else<F: FnOnce() -> T>(self, f: F) -> T
        requires { ForNone (option_of self) (F.pre f) }
        ensures { MatchOption (option_of self) (F.post f result) (λ x. result ≡ x) }
    {
        self.to_option().unwrap_or_else(f)
    }

    /// The value, or the default of its type.
    pub fn unwrap_or_default(self) -> T
    where
        T: Default,
        ensures { UnwrapsOrElse (option_of self) T.is_default result }
    {
        self.to_option().unwrap_or_default()
    }

    /// The value, which must exist: `is_some` must hold.
    pub fn unwrap(self) -> T
        requires { IsSome (option_of self) }
        ensures { option_of self ≡ Some result }
    {
        self.to_option().unwrap()
    }

    /// The value, which must exist: `is_some` must hold. The message is for readers of the code and has no effect.
    pub fn expect(self, _message: &str) -> T
        requires { IsSome (option_of self) }
        ensures { option_of self ≡ Some result }
    {
        self.to_option().unwrap()
    }
}

impl<T> From<Option<T>> for RelocatableOption<T> {
    ghost from_gives = { λ option made. option_of made ≡ option };

    fn from(option: Option<T>) -> Self {
        match option {
            None => RelocatableOption::None,
            Some(value) => RelocatableOption::Some(value),
        }
    }
}

impl<T> From<RelocatableOption<T>> for Option<T> {
    ghost from_gives = { λ option made. made ≡ option_of option };

    fn from(option: RelocatableOption<T>) -> Self {
        option.to_option()
    }
}

/// The value is serialized, or null if there is none.
impl<T: Described> Described for RelocatableOption<T> {
    ghost writes = { λ option. WritesOption T.writes (option_of option) };
}

impl<T: Serialize> Serialize for RelocatableOption<T> {
    fn serialize<S: Serializer>(&self, out: &mut S) -> Result<(), S::Error> {
        match self {
            RelocatableOption::Some(value) => value.serialize(out),
            RelocatableOption::None => out.unit(),
        }
    }
}

impl<T: DeserializeOwned> DeserializeOwned for RelocatableOption<T> {
    fn deserialize_owned<F: Format>(
        alloc: Global,
        from: &mut Deserializer<'_, '_, F>,
    ) -> Result<Self, F::Error> {
        Ok(RelocatableOption::from(Option::<T>::deserialize_owned(alloc, from)?))
    }
}

impl<'de, T: Deserialize<'de>> Deserialize<'de> for RelocatableOption<T> {
    fn deserialize<F: Format>(
        alloc: Global,
        from: &mut Deserializer<'de, '_, F>,
    ) -> Result<Self, F::Error> {
        Ok(RelocatableOption::from(Option::<T>::deserialize(alloc, from)?))
    }
}
