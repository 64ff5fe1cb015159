//! From threads back to a domain.
ghost use Rattle.std.specs.Prelude.{◌≡◌, ◌++◌, true, false, IfOk, IfErr, map};
ghost use Rattle.iox_lanes_threads_rule.specs.Gathered.{Agree};
ghost use Rattle.iox_lanes_threads.specs.Ending.{AreAll, ArePublishersOf, AreSubscribersOf};
ghost use Rattle.iox_lanes.specs.Emptied.{IsEnded};

use crate::threads::emptying::{forget_all, go_on_all};
use crate::threads::threads::{DomainBoard, DomainThreads};
use iox_domain::Domain;
use iox_lanes_threads::{EndError, LanePublisher, LaneSubscriber, are_all};

/// Whether these are all ports of a domain's board.
pub fn has_all<T, U, B, D>(
    board: &DomainBoard<T, U, B, D>,
    publishers: &[LanePublisher],
    subscribers: &[LaneSubscriber],
) -> bool
    ensures all { result ≡ true → AreAll board.now.board publishers.now subscribers.now }
    ensures lacks { result ≡ false → AreAll board.now.board publishers.now subscribers.now → ⊥ }
{
    are_all(&board.board, publishers, subscribers)
}

// Returns ports that aren't all those of a board.
fn not_all<T, U, B, D>(
    board: DomainBoard<T, U, B, D>,
    publishers: Vec<LanePublisher>,
    subscribers: Vec<LaneSubscriber>,
) -> (EndError, DomainThreads<T, U, B, D>)
    ensures { result.1 ≡ record { board = board; publishers = publishers; subscribers = subscribers } }
{
    let threads = DomainThreads {
        board,
        publishers,
        subscribers,
    };
    (EndError::NotAllPorts, threads)
}

// The domain after its publishers forgot their messages and took over the last sequence numbers of their ports. `numbers` are the numbers
// of the publishers, by place of their ports.
pub(crate) fn emptied<T: Copy, U: Copy, B, D>(
    mut domain: Domain<T, U, B, D>,
    numbers: &[u64],
    publishers: &[LanePublisher],
) -> Domain<T, U, B, D>
    ensures { IsEnded numbers.now publishers.now domain result }
{
    go_on_all(&mut domain.state.ports.publishers, numbers, publishers);
    forget_all(&mut domain.state.ports.publishers, numbers);
    domain
}

/// Ends all ports of a domain's board: the domain has the same ports again, and no messages. It is as it was when its lanes began, except
/// that the mailboxes and histories of its publishers are empty, and their sequence numbers go on after the last ones of their ports. Loans
/// and samples that were still out are void. Nothing is allocated. If a port is missing or belongs to another board, it returns
/// `NotAllPorts` with all ports and the board as they were; [`abandon`](crate::threads::abandon) ends a board of which ports are lost.
///
/// A board identifies a port by its number alone. So `end` requires that each port with the board's number steps on the board's own words,
/// which `open_threads` ensures (`own`) and each call of a port keeps (`same`). Ports of other boards may be handed in, and are refused.
/// In return `end` ensures that what a subscriber has read of a sample that it still holds is what the publisher knows of the slot, if the
/// ports know that no write position came to 2^64 - 1. Not in `iceoryx2`.
/// Example: `let domain = end(board, publishers, subscribers).map_err(|refused| refused.0)?;`
pub fn end<T: Copy, U: Copy, B, D>(
    board: DomainBoard<T, U, B, D>,
    publishers: Vec<LanePublisher>,
    subscribers: Vec<LaneSubscriber>,
) -> Result<Domain<T, U, B, D>, (EndError, DomainThreads<T, U, B, D>)>
    requires publishers { ArePublishersOf board.board publishers.items }
    requires subscribers { AreSubscribersOf board.board subscribers.items }
    ensures ended { IfOk result (λ domain. AreAll board.board publishers.items subscribers.items
        × IsEnded board.publishers publishers.items board.domain domain) }
    ensures agree { IfOk result (λ _. Agree (map (λ p. p.own.port) publishers.items ++ map (λ s. s.own.port) subscribers.items)) }
    ensures refused { IfErr result (λ refused. (AreAll board.board publishers.items subscribers.items → ⊥)
        × (refused.1 ≡ record { board = board; publishers = publishers; subscribers = subscribers })) }
{
    if !has_all(&board, &publishers, &subscribers) {
        return Err(not_all(board, publishers, subscribers));
    }
    let (board, domain, numbers, _receivers) = board.into_fields();
    let domain = emptied(domain, &numbers, &publishers);
    match iox_lanes_threads::end(board, publishers, subscribers) {
        Ok(_) => Ok(domain),
        Err(_) => unreachable!(),
    }
}
