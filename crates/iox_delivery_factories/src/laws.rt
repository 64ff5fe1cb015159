//! Theorems about builders. They are the contracts of functions that do nothing.
ghost use Rattle.iox_delivery_factories.specs.Elements.{ElementsHaveValues, HasOneKind};

/// How many values an element has in a service for which a builder creates publishers: as many as it has bytes, if the values are the
/// bytes of any payload; otherwise one.
pub fn elements_have_values()
    ensures { ElementsHaveValues }
{}

/// A service has builders of ports of single values of a type, or builders of ports of slices of it, and not both. The type that matches
/// any payload is the exception: its values are the bytes of a payload, and its ports are of slices.
pub fn a_service_has_one_kind()
    ensures { HasOneKind }
{}
