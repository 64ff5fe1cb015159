//! The actions of other nodes before each storage operation.
ghost use Rattle.std.specs.Prelude.{◌≡◌, ℕ, [], map, min, IfOk, IsOk};
ghost use Rattle.std.specs.List.{AllByRecursion};
ghost use Rattle.iox_hub_commands.specs.Steps.{PublishesInForm, step_of, list_of, list_before, last_access, acts_first, lists_of};

use crate::services::requests::described::description;
use iox_command::{ForeignStep as Named, StepBefore};
use iox_describe_base::{MessageTypeDetails, ServiceName};
use iox_negotiate_table::{ForeignStep, StepList};
use std::alloc::{AllocError, Global};

/// The maximum number of lists of actions of a call: no call makes more storage operations before which other nodes act.
pub const MOST_LISTS: u64 = 16;

/// The actions on the service of a name, in their order; what they publish has the form of a description.
///
/// Refused only if an allocation fails; an empty list takes no memory.
pub fn step_list(
    alloc: Global,
    name: &ServiceName,
    types: &MessageTypeDetails,
    steps: &[Named],
) -> Result<StepList, AllocError>
    ensures list { IfOk result (λ list. list ≡ list_of name.now types.now steps.now) }
    ensures form { IfOk result (λ list. AllByRecursion PublishesInForm list) }
    ensures empty { steps.now ≡ [] → IsOk result }
{
    let mut list = Vec::new(alloc);
    for named in steps {
        list.push(step(named, name, types))?;
    }
    Ok(StepList::new(list))
}

/// The actions of other nodes before each storage operation, up to the last operation that has any, but at most the sixteenth. What the
/// actions publish has the form of a description.
///
/// Refused only if an allocation fails; without actions no memory is taken.
pub fn step_lists(
    alloc: Global,
    name: &ServiceName,
    types: &MessageTypeDetails,
    steps: &[StepBefore],
) -> Result<Vec<StepList>, AllocError>
    ensures lists { IfOk result (λ lists. lists.items ≡ lists_of name.now types.now steps.now) }
    ensures form { IfOk result (λ lists. AllByRecursion (AllByRecursion PublishesInForm) lists.items) }
    ensures empty { steps.now ≡ [] → IsOk result }
{
    let mut lists = Vec::new(alloc);
    let mut access = 1;
    let mut left = last_access(steps).min(MOST_LISTS);
    while left > 0 {
        lists.push(list_before(alloc, access, name, types, steps)?)?;
        access += 1;
        left -= 1;
    }
    Ok(lists)
}

// The actions before one storage operation.
fn list_before(
    alloc: Global,
    access: u64,
    name: &ServiceName,
    types: &MessageTypeDetails,
    steps: &[StepBefore],
) -> Result<StepList, AllocError>
    ensures list { IfOk result (λ list. list ≡ list_before name.now types.now steps.now access) }
    ensures form { IfOk result (λ list. AllByRecursion PublishesInForm list) }
{
    let mut list = Vec::new(alloc);
    for before in steps {
        if before.access == access {
            list.push(step(&before.step, name, types))?;
        }
    }
    Ok(StepList::new(list))
}

// The last storage operation before which there are actions; 0 if there are none.
fn last_access(steps: &[StepBefore]) -> u64
    ensures { result ≡ last_access steps.now }
{
    let mut rest = steps;
    let mut last = 0;
    while let Some((before, later)) = rest.split_first() {
        rest = later;
        last = before.access.max(last);
    }
    last
}

/// Whether an action is named before the first storage operation.
/// Example: `let is_first = acts_first(&steps);`
pub fn acts_first(steps: &[StepBefore]) -> bool
    ensures { result ≡ acts_first steps.now }
{
    steps.iter().any(|before| before.access == 1)
}

// An action on the service of a name.
fn step(named: &Named, name: &ServiceName, types: &MessageTypeDetails) -> ForeignStep
    ensures value { result ≡ step_of name.now types.now named.now }
    ensures form { PublishesInForm result }
{
    match named {
        Named::Lock(node) => ForeignStep::Lock { node: *node },
        Named::GiveUp(node) => ForeignStep::GiveUp { node: *node },
        Named::Publish(node, options) => ForeignStep::Publish {
            node: *node,
            description: description(name, options, types),
        },
        Named::PublishV1(node, options) => ForeignStep::PublishV1 {
            node: *node,
            description: description(name, options, types),
        },
        Named::Register(node) => ForeignStep::Register { node: *node },
        Named::Leave(node) => ForeignStep::Leave { node: *node },
        Named::Remove(node) => ForeignStep::Remove { node: *node },
    }
}
