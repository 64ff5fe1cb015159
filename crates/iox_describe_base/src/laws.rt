//! Theorems about compatibility. Each one is the contract of a function that does nothing.
ghost use Rattle.std.specs.Prelude.{◌≡◌, ◌↔◌, true};
ghost use Rattle.iox_describe_base.specs.declared.message_type.MessageTypeDetails.{MessageTypeDetails};
ghost use Rattle.iox_describe_base.specs.Compatible.{is_compatible, IsCompatible};

/// Types are compatible exactly if all their parts are equal, except that the asked alignment of the payload may be smaller.
pub fn compatible_means()
    ensures { (asked given : MessageTypeDetails) → (is_compatible asked given ≡ true) ↔ IsCompatible asked given }
{}

/// Types are compatible with themselves.
pub fn compatible_is_reflexive()
    ensures { (types : MessageTypeDetails) → is_compatible types types ≡ true }
{}

/// Compatibility of types is transitive.
pub fn compatible_is_transitive()
    ensures { (a b c : MessageTypeDetails) → is_compatible a b ≡ true → is_compatible b c ≡ true → is_compatible a c ≡ true }
{}
