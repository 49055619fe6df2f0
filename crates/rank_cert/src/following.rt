//! Where a route leads on a map, port after port.

ghost use Rattle.std.specs.Prelude.{◌≡◌, [], All, IfSome};
ghost use Rattle.net_defs.specs.Turn.{IsTurn};
ghost use Rattle.map_defs.specs.Routing.{led_to, turned_to, port_of_host};
ghost use Rattle.fabric_map.specs.Table.{far_pair};
ghost use Rattle.rank_cert.specs.Following.{unpair, next_after};

use fabric_map::{FabricMap, MapVertex};

/// The port of a host.
pub(crate) fn port_of_host(m: &FabricMap, h: u16) -> Option<(u32, i8)>
    ensures { result ≡ far_pair (port_of_host m.now h) }
{
    match m.vertex_of_host(h) {
        None => None,
        Some(v) => Some((v, 0)),
    }
}

/// The port that is entered last, from a port to leave by.
pub(crate) fn led_to(m: &FabricMap, start: Option<(u32, i8)>, turns: &[i8]) -> Option<(u32, i8)>
    requires { All IsTurn turns.now }
    ensures { result ≡ far_pair (led_to m.now (unpair start) turns.now) }
{
    let mut at = start;
    for turn in turns {
        at = next_port(m, at, *turn);
    }
    far_of(m, at)
}

/// The port at the other end of the cable at a port.
pub(crate) fn far_of(m: &FabricMap, at: Option<(u32, i8)>) -> Option<(u32, i8)>
    ensures far { result ≡ far_pair (led_to m.now (unpair at) []) }
    ensures turn { IfSome result (λ e. IsTurn e.1) }
{
    match at {
        None => None,
        Some((v, p)) => m.map_far(v, p),
    }
}

/// The next port to leave by: over the cable at one, then by a turn.
pub(crate) fn next_port(m: &FabricMap, at: Option<(u32, i8)>, turn: i8) -> Option<(u32, i8)>
    requires { IsTurn turn }
    ensures { result ≡ far_pair (next_after m.now (unpair at) turn) }
{
    next_by(m, at, far_of(m, at), turn)
}

/// The same where the port at the other end of the cable is known.
pub(crate) fn next_by(
    m: &FabricMap,
    at: Option<(u32, i8)>,
    far: Option<(u32, i8)>,
    turn: i8,
) -> Option<(u32, i8)>
    requires turn { IsTurn turn }
    requires far { far ≡ far_pair (led_to m.now (unpair at) []) }
    requires entered { IfSome far (λ e. IsTurn e.1) }
    ensures { result ≡ far_pair (next_after m.now (unpair at) turn) }
{
    match at {
        None => None,
        Some(_) => match far {
            None => None,
            Some((w, q)) => turned_to(m, w, q, turn),
        },
    }
}

// The port that a turn leaves by, from the port entered: none at a host.
fn turned_to(m: &FabricMap, w: u32, q: i8, turn: i8) -> Option<(u32, i8)>
    requires entered { IsTurn q }
    requires onward { IsTurn turn }
    ensures { result ≡ far_pair (turned_to m.now record { v = w; p = q } turn) }
{
    match m.vertices().get(w as usize) {
        Some(MapVertex::Switch(_)) => Some((w, q + turn)),
        _ => None,
    }
}
