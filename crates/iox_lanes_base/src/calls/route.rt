//! A connection as its two ports know it.
ghost use Rattle.std.specs.Prelude.{◌≡◌};
ghost use Rattle.iox_lanes_base.specs.Routes.{known_as, rerouted};

use iox_queues_steps::rings::RingKind;

/// A connection: its number, its maximum number of waiting messages, and the sizes of its two rings.
#[derive(Clone, Copy)]
pub struct Route {
    /// The number of the connection.
    pub connection: u64,
    /// What the submission ring does with another message when it is full.
    pub kind: RingKind,
    /// The maximum number of waiting messages.
    pub limit: u64,
    /// How many cells the submission ring has.
    pub submission_cells: u64,
    /// How many cells the completion ring has; as many samples may be there.
    pub completion_cells: u64,
}

/// Replaces each of a port's connections that has the number of `route` by `route`.
pub fn reroute(routes: &mut [Route], route: Route)
    ensures { routes.new ≡ rerouted route routes.old }
{
    for own in routes.iter_mut() {
        *own = known_as(route, *own);
    }
}

fn known_as(route: Route, own: Route) -> Route
    ensures { result ≡ known_as route own }
{
    if own.connection == route.connection {
        route
    } else {
        own
    }
}
