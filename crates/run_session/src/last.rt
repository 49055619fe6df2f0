//! The last map and the last routes, as a session keeps them.

ghost use Rattle.std.specs.Prelude.{◌≡◌, Some, option_copied};
ghost use Rattle.run_defs.specs.Session.{complete_map};

use fabric_map::FabricMap;
use port_graph::RouteSet;
use run_defs::MapWords;
use std::marker::Model;

/// The last map: by which mapper, how far it is known to be right, the map, and after how many changes of cables it
/// began.
#[derive(Drop)]
pub(crate) struct LastMade {
    pub(crate) mapper: u16,
    pub(crate) words: MapWords,
    pub(crate) made: FabricMap,
    pub(crate) began: u64,
}

impl Model for LastMade {
    ghost use Rattle.run_defs.specs.Session.{LastMap};

    ghost Value = { LastMap };

    ghost view = { λ l. record { mapper = l.mapper; words = l.words; made = l.made; began = l.began } };
}

/// The last routes: the mapper and the hosts of their map, by address, the routes, and after how many changes of cables
/// that map began.
#[derive(Drop)]
pub(crate) struct LastFound {
    pub(crate) mapper: u16,
    pub(crate) hosts: Vec<u16>,
    pub(crate) routes: RouteSet,
    pub(crate) began: u64,
}

impl Model for LastFound {
    ghost use Rattle.run_defs.specs.Session.{LastRoutes};

    ghost Value = { LastRoutes };

    ghost view = { λ l. record { mapper = l.mapper; hosts = l.hosts.items; routes = l.routes; began = l.began } };
}

/// The last map, where it is complete.
pub(crate) fn complete(last: &Option<LastMade>) -> Option<&LastMade>
    ensures { option_copied result ≡ complete_map last.now }
{
    match last {
        Some(l) => if_complete(l),
        None => None,
    }
}

// The map, if it says complete.
fn if_complete(l: &LastMade) -> Option<&LastMade>
    ensures { option_copied result ≡ complete_map (Some l.now) }
{
    match l.words {
        MapWords::Complete => Some(l),
        MapWords::Doubtful(_) | MapWords::IncompleteDepth | MapWords::IncompleteNodes => None,
    }
}
