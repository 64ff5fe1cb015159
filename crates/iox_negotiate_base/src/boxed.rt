//! A description in memory of its own.
ghost use Rattle.std.specs.Prelude.{◌≡◌, IfOk};

use iox_describe::Description;
use std::alloc::{AllocError, Global};
use std::marker::Model;

/// A description in memory of its own, so that what holds it is small and moved without copying it. Contracts see the description.
///
/// Not in `iceoryx2`.
#[derive(Drop)]
pub struct BoxedDescription {
    kept: Box<Description>,
}

impl Model for BoxedDescription {
    ghost use Rattle.iox_describe.specs.DescribeSettings.Agreement.{Agreement};

    ghost Value = { Agreement };

    ghost view = { λ b. b.kept.value };
}

impl BoxedDescription {
    /// Moves a description into memory of its own. It fails only if an allocation fails.
    ///
    /// Example: `let boxed = BoxedDescription::new(alloc, description)?;`
    pub fn new(alloc: Global, description: Description) -> Result<Self, AllocError>
        ensures { IfOk result (λ boxed. boxed ≡ description) }
    {
        Ok(BoxedDescription {
            kept: Box::new(alloc, description)?,
        })
    }

    /// A copy of a description in memory of its own. It fails only if an allocation fails.
    ///
    /// Example: `let copy = BoxedDescription::copy_of(alloc, factory.description())?;`
    pub fn copy_of(alloc: Global, description: &Description) -> Result<Self, AllocError>
        ensures { IfOk result (λ boxed. boxed ≡ description.now) }
    {
        BoxedDescription::new(alloc, description.try_clone(alloc)?)
    }

    /// The description.
    ///
    /// Example: `let name = boxed.get().name();`
    pub fn get(&self) -> &Description
        ensures { result.now ≡ self.now }
    {
        &self.kept
    }
}
