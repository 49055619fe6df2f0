//! Whether vertices are numbered as they stand in the order, so that one sweep finds all distances.

ghost use Rattle.std.specs.Prelude.{◌≡◌, ℕ, ◌<◌, true, length};
ghost use Rattle.std.specs.List.{list_all};
ghost use Rattle.map_defs.specs.Orientation.{order_of};
ghost use Rattle.route_calc.specs.Exits.{all_exits};
ghost use Rattle.route_calc.specs.Lowering.{AreNumbered, IsNumbered, leads_in_order};

use crate::distances::is_switch;
use crate::entered::Exit;
use crate::exits::Exits;
use fabric_map::FabricMap;

/// Whether channels between switches lead up to lesser numbers, and down to none that is lesser. The hosts don't count:
/// a way leads nowhere on from one.
pub(crate) fn are_numbered(m: &FabricMap, exits: &[Exits]) -> bool
    requires { exits.now ≡ all_exits m.now (order_of m.now) }
    ensures { result ≡ true → AreNumbered m.now (order_of m.now) }
{
    for v in 0..m.vertices().len() {
        if !is_numbered(m, exits, v) {
            return false;
        }
    }
    true
}

// Whether the channels of a vertex do.
fn is_numbered(m: &FabricMap, exits: &[Exits], v: usize) -> bool
    requires exits { exits.now ≡ all_exits m.now (order_of m.now) }
    requires vertex { v < length m.now.vertices }
    ensures { result ≡ true → IsNumbered m.now (order_of m.now) v }
{
    let _ = m.vertices();
    if is_switch(m, v as u32) {
        lead_in_order(m, v as u32, exits[v].list())
    } else {
        true
    }
}

// Whether these ports of a switch do.
fn lead_in_order(m: &FabricMap, v: u32, exits: &[Exit]) -> bool
    ensures { result ≡ list_all (leads_in_order m.now v) exits.now }
{
    for exit in exits {
        if !leads_in_order(m, v, *exit) {
            return false;
        }
    }
    true
}

// Whether a port of a vertex leads to a host, or up to a lesser number, or down to one that isn't.
fn leads_in_order(m: &FabricMap, v: u32, exit: Exit) -> bool
    ensures { result ≡ leads_in_order m.now v exit }
{
    if !is_switch(m, exit.next.v) {
        true
    } else if exit.next.down {
        v <= exit.next.v
    } else {
        exit.next.v < v
    }
}
