//! The circuit place of a walk.

ghost use Rattle.std.specs.Prelude.{◌≡◌, ◌+◌, ◌<◌, ◌≤◌, ◌||◌, length, take, Some, IfSome};
ghost use Rattle.std.specs.List.{list_any};
ghost use Rattle.net_defs.specs.Network.{far, same_end, IsFabric};
ghost use Rattle.net_defs.specs.Route.{entered_after, host_port, next_exit, exit_at, IsPlaceOf};
ghost use Rattle.net_defs.specs.Route.{IsEntered};
ghost use Rattle.circ_defs.specs.Circuit.{circuit_place};
ghost use Rattle.circ_link.specs.Exits.{exits_of, is_end, back_of, are_free, held_at, held_by_exits};

use net_defs::{End, Place, Vertex, leaving_port};
use port_graph::Fabric;

/// The most exits of a walk: its host's, and one for each of 64 turns.
pub(crate) const MAX_EXITS: usize = 65;

/// The circuit place of a walk from a host: its place, but `Nothing` where it meets itself. A walk to a host does so
/// where it crosses a channel twice, a walk to a switch where it crosses a cable twice, in whatever direction. It
/// takes no memory.
pub fn circ_place(f: &Fabric, host: u16, turns: &[i8]) -> Place
    requires short { length turns.now ≤ 64 }
    ensures place { result ≡ circuit_place f.now host turns.now }
    ensures there { IsPlaceOf f.now result }
{
    let _count = f.hosts();
    let mut exits = [host_end(host); MAX_EXITS];
    let entered = follow(f, host, turns, &mut exits);
    held(f, &exits[..turns.len() + 1], entered)
}

/// The end that a walk enters last, none where it is stuck; it writes down the ends by which it leaves.
pub(crate) fn follow(f: &Fabric, host: u16, turns: &[i8], exits: &mut [End]) -> Option<End>
    requires room { length turns.now < length exits.old }
    ensures entered { result ≡ entered_after f.now (far f.now (host_port host)) turns.now }
    ensures there { IsEntered f.now result }
    ensures exits { IfSome result (λ _. take (length turns.now + 1) exits.new ≡ exits_of f.now host turns.now) }
{
    let mut exit = host_end(host);
    for at in 0..turns.len() {
        exits[at] = exit;
        match next_exit(f, exit, turns[at]) {
            Some(next) => exit = next,
            None => return None,
        }
    }
    exits[turns.len()] = exit;
    f.far(exit.v, exit.p)
}

/// The port of a host.
pub(crate) fn host_end(host: u16) -> End
    ensures { result ≡ host_port host }
{
    End {
        v: Vertex::Host(host),
        p: 0,
    }
}

// The end by which a turn leaves what the last exit led to.
fn next_exit(f: &Fabric, exit: End, turn: i8) -> Option<End>
    ensures { result ≡ next_exit f.now (Some exit) turn }
{
    match f.far(exit.v, exit.p) {
        Some(entered) => exit_at(f, entered, turn),
        None => None,
    }
}

/// The end by which a turn leaves.
pub(crate) fn exit_at(f: &Fabric, entered: End, turn: i8) -> Option<End>
    ensures { result ≡ exit_at f.now entered.v entered.p turn }
{
    match entered.v {
        Vertex::Host(_) => None,
        Vertex::Switch(_) => match leaving_port(f.ports(entered.v), entered.p, turn) {
            Some(p) => Some(End { v: entered.v, p }),
            None => None,
        },
    }
}

// Where a walk over these exits ends that entered this end last.
fn held(f: &Fabric, exits: &[End], entered: Option<End>) -> Place
    ensures { result ≡ held_by_exits f.now exits.now entered }
{
    match entered {
        None => Place::Nothing,
        Some(end) => held_at(f, exits, end),
    }
}

// Where a walk over these exits to this end ends.
fn held_at(f: &Fabric, exits: &[End], end: End) -> Place
    ensures { result ≡ held_at f.now exits.now end.v end.p }
{
    match end.v {
        Vertex::Host(h) => {
            if are_free(f, exits, false) {
                Place::Host(h)
            } else {
                Place::Nothing
            }
        }
        Vertex::Switch(s) => {
            if are_free(f, exits, true) {
                Place::Switch(s, end.p)
            } else {
                Place::Nothing
            }
        }
    }
}

/// Whether no exit is left twice; with `both` also no cable crossed back.
pub(crate) fn are_free(f: &Fabric, exits: &[End], both: bool) -> bool
    ensures { result ≡ are_free f.now both exits.now }
{
    for at in 0..exits.len() {
        let back = back_of(f, exits[at], both);
        if is_met(&exits[at + 1..], exits[at], back) {
            return false;
        }
    }
    true
}

// The other end of the cable at an exit, where both directions count.
fn back_of(f: &Fabric, exit: End, both: bool) -> Option<End>
    ensures { result ≡ back_of f.now both exit }
{
    if both { f.far(exit.v, exit.p) } else { None }
}

/// Whether one of these exits is this exit or the other end of its cable.
pub(crate) fn is_met(exits: &[End], exit: End, back: Option<End>) -> bool
    ensures { result ≡ list_any (λ d. same_end d exit || is_end back d) exits.now }
{
    exits.iter().any(|d| *d == exit || Some(*d) == back)
}
