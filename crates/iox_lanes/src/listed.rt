//! The numbers of the listed ports, by place.
ghost use Rattle.std.specs.Prelude.{◌≡◌, ◌++◌, ◌∷◌, [], IfOk, OnOk};
ghost use Rattle.iox_lanes.specs.Holding.{numbers_of};

use iox_domain::ports::Roll;
use iox_domain_ports::{Member, PublisherEntry, SubscriberEntry};
use std::alloc::{AllocError, Global};

/// The numbers of the listed publishers, in the order of their places.
pub(crate) fn publishers_listed(
    alloc: Global,
    list: &Roll<PublisherEntry>,
) -> Result<Vec<u64>, AllocError>
    ensures { IfOk result (λ numbers. numbers.items ≡ numbers_of (λ entry. entry.publisher) list.now.places) }
{
    let listed = list.listed();
    let mut numbers = Vec::new(alloc);
    for at in 0..listed.len() {
        add_publisher(&mut numbers, listed[at])?;
    }
    Ok(numbers)
}

fn add_publisher(
    numbers: &mut Vec<u64>,
    listed: Option<Member<PublisherEntry>>,
) -> Result<(), AllocError>
    ensures { OnOk result (numbers.new.items ≡ numbers.old.items ++ numbers_of (λ entry. entry.publisher) (listed ∷ [])) }
{
    match listed {
        Some(member) => {
            numbers.push(member.value.publisher)?;
            Ok(())
        }
        None => Ok(()),
    }
}

/// The numbers of the listed subscribers, in the order of their places.
pub(crate) fn subscribers_listed(
    alloc: Global,
    list: &Roll<SubscriberEntry>,
) -> Result<Vec<u64>, AllocError>
    ensures { IfOk result (λ numbers. numbers.items ≡ numbers_of (λ entry. entry.subscriber) list.now.places) }
{
    let listed = list.listed();
    let mut numbers = Vec::new(alloc);
    for at in 0..listed.len() {
        add_subscriber(&mut numbers, listed[at])?;
    }
    Ok(numbers)
}

fn add_subscriber(
    numbers: &mut Vec<u64>,
    listed: Option<Member<SubscriberEntry>>,
) -> Result<(), AllocError>
    ensures { OnOk result (numbers.new.items ≡ numbers.old.items ++ numbers_of (λ entry. entry.subscriber) (listed ∷ [])) }
{
    match listed {
        Some(member) => {
            numbers.push(member.value.subscriber)?;
            Ok(())
        }
        None => Ok(()),
    }
}
