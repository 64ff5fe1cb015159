//! Theorems about the calls: consequences of their contracts. Each is the contract of a function that does nothing.
ghost use Rattle.iox_hub_commands.specs.AgreementLaws.{AgreementIsOne};
ghost use Rattle.iox_hub_commands.specs.RoomLaws.{StaysNew};

/// If each service has one agreement, as in every run from a new hub, two factories of a service carry the same agreement, and the
/// service's domain has its settings. This is the contract of a function that does nothing.
pub fn agreement_is_one<T, U, B, D>()
    ensures { AgreementIsOne T U B D }
{}

/// A new hub with more capacity for numbers is a new hub. So what is proved of every run of a new hub, here and in the crates above, holds
/// for each `NumberedHub::run` of one, which makes capacity first. This is the contract of a function that does nothing.
pub fn room_keeps_it_new<T, U, B, D>()
    ensures { StaysNew T U B D }
{}
