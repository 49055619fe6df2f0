//! The circuit places of walks that go on from one walk.

ghost use Rattle.std.specs.Prelude.{◌≡◌, ◌+◌, ◌<◌, ◌≤◌, ◌||◌, ◌++◌, ◌∷◌, [], length, take, true, false, Some};
ghost use Rattle.std.specs.List.{list_any};
ghost use Rattle.net_defs.specs.Network.{far, same_end, IsFabric};
ghost use Rattle.circ_defs.specs.Circuit.{circuit_place};
ghost use Rattle.circ_link.specs.Exits.{IsFollowed, are_free, end_from, exit_from, held_on, held_on_at};

use crate::circuit::{MAX_EXITS, are_free, circ_place, exit_at, follow, host_end, is_met};
use net_defs::{End, Place, Vertex};
use port_graph::Fabric;
use std::marker::Model;

// The most turns of a walk.
const MAX_TURNS: usize = 64;

/// Says the circuit places of walks from one host of a fabric. It takes no memory.
///
/// It keeps the walk up to the last turn of the one that it answered last. So walks that differ only in their last turn
/// cost one step each.
#[derive(Drop)]
pub struct CircPlaces<'f> {
    fabric: &'f Fabric,
    host: u16,
    front: Front,
}

// A walk that was followed from a host.
#[derive(Drop)]
struct Front {
    turns: [i8; MAX_TURNS],
    count: usize,
    // The ends by which it leaves: one more than its turns.
    exits: [End; MAX_EXITS],
    // The end that it entered last.
    entered: Option<End>,
    // Whether it crosses no channel twice.
    channels: bool,
    // Whether it crosses no cable twice, in whatever direction.
    cables: bool,
}

impl<'f> Model for CircPlaces<'f> {
    ghost use Rattle.std.specs.Prelude.{◌+◌, ◌<◌, length, take};
    ghost use Rattle.net_defs.specs.Network.{IsFabric};
    ghost use Rattle.circ_link.specs.Exits.{FabricHost, IsFollowed};

    ghost Value = { FabricHost };

    ghost view = { λ p. record { fabric = p.fabric.now; host = p.host } };

    ghost invariant = { λ p. IsFabric p.fabric.now × (p.front.count < 64)
        × IsFollowed p.fabric.now p.host (take p.front.count p.front.turns)
        (take (p.front.count + 1) p.front.exits) p.front.entered p.front.channels p.front.cables };
}

impl<'f> CircPlaces<'f> {
    /// The places of walks from this host.
    pub fn new(fabric: &'f Fabric, host: u16) -> CircPlaces<'f>
        ensures { result ≡ record { fabric = fabric.now; host = host } }
    {
        let _count = fabric.hosts();
        let start = host_end(host);
        let front = Front {
            turns: [0; MAX_TURNS],
            count: 0,
            exits: [start; MAX_EXITS],
            entered: fabric.far(start.v, start.p),
            channels: true,
            cables: true,
        };
        CircPlaces {
            fabric,
            host,
            front,
        }
    }

    /// The host from which the walks lead.
    pub fn host(&self) -> u16
        ensures { result ≡ self.now.host }
    {
        self.host
    }

    /// The circuit place of a walk, as `circ_place` says it.
    pub fn place_of(&mut self, turns: &[i8]) -> Place
        requires short { length turns.now ≤ 64 }
        ensures place { result ≡ circuit_place self.old.fabric self.old.host turns.now }
        ensures same { self.new ≡ self.old }
    {
        match turns.split_last() {
            None => circ_place(self.fabric, self.host, turns),
            Some((turn, front)) => {
                go_to(self.fabric, self.host, &mut self.front, front);
                place_after(self.fabric, self.host, &self.front, *turn)
            }
        }
    }
}

// Follows this walk, unless it was followed last.
fn go_to(f: &Fabric, host: u16, walk: &mut Front, turns: &[i8])
    requires short { length turns.now < 64 }
    requires count { walk.old.count < 64 }
    requires followed { IsFollowed f.now host (take walk.old.count walk.old.turns)
        (take (walk.old.count + 1) walk.old.exits) walk.old.entered walk.old.channels walk.old.cables }
    ensures count { walk.new.count < 64 }
    ensures turns { take walk.new.count walk.new.turns ≡ turns.now }
    ensures followed { IsFollowed f.now host (take walk.new.count walk.new.turns)
        (take (walk.new.count + 1) walk.new.exits) walk.new.entered walk.new.channels walk.new.cables }
{
    if &walk.turns[..walk.count] != turns {
        walk.count = turns.len();
        walk.turns[..turns.len()].copy_from_slice(turns);
        walk.entered = follow(f, host, turns, &mut walk.exits);
        walk.cables = are_free(f, &walk.exits[..turns.len() + 1], true);
        walk.channels = are_channels_free(f, &walk.exits[..turns.len() + 1], walk.cables);
    }
}

// Whether no exit is left twice. Where no cable is crossed twice, none is.
#[tactic(auto, using(crate::proofs::Meeting::free_as_channels))]
fn are_channels_free(f: &Fabric, exits: &[End], cables: bool) -> bool
    requires { cables ≡ are_free f.now true exits.now }
    ensures { result ≡ are_free f.now false exits.now }
{
    cables || are_free(f, exits, false)
}

// The circuit place of a walk that was followed, with a turn more.
fn place_after(f: &Fabric, host: u16, walk: &Front, turn: i8) -> Place
    requires count { walk.now.count < 64 }
    requires followed { IsFollowed f.now host (take walk.now.count walk.now.turns)
        (take (walk.now.count + 1) walk.now.exits) walk.now.entered walk.now.channels walk.now.cables }
    ensures { result ≡ circuit_place f.now host (take walk.now.count walk.now.turns ++ turn ∷ []) }
{
    let _count = f.hosts();
    let exit = exit_from(f, walk.entered, turn);
    held_on(walk, exit, end_from(f, exit))
}

// The end by which a turn leaves the end that was entered last.
fn exit_from(f: &Fabric, entered: Option<End>, turn: i8) -> Option<End>
    ensures { result ≡ exit_from f.now entered turn }
{
    match entered {
        Some(e) => exit_at(f, e, turn),
        None => None,
    }
}

// The end at the other side of the cable at an exit.
fn end_from(f: &Fabric, exit: Option<End>) -> Option<End>
    ensures { result ≡ end_from f.now exit }
{
    match exit {
        Some(e) => f.far(e.v, e.p),
        None => None,
    }
}

// Where a walk ends that goes on by an exit to an end.
fn held_on(walk: &Front, exit: Option<End>, entered: Option<End>) -> Place
    requires { walk.now.count < 64 }
    ensures { result ≡ held_on (take (walk.now.count + 1) walk.now.exits) walk.now.channels walk.now.cables exit
        entered }
{
    match (exit, entered) {
        (Some(exit), Some(end)) => held_on_at(walk, exit, end),
        _ => Place::Nothing,
    }
}

// Where a walk ends that goes on by an exit to an end, where it isn't stuck.
fn held_on_at(walk: &Front, exit: End, end: End) -> Place
    requires { walk.now.count < 64 }
    ensures { result ≡ held_on_at (take (walk.now.count + 1) walk.now.exits) walk.now.channels walk.now.cables exit
        end.v end.p }
{
    let exits = &walk.exits[..walk.count + 1];
    match end.v {
        Vertex::Host(h) => {
            if walk.channels && !is_met(exits, exit, None) {
                Place::Host(h)
            } else {
                Place::Nothing
            }
        }
        Vertex::Switch(s) => {
            if walk.cables && !is_met(exits, exit, Some(end)) {
                Place::Switch(s, end.p)
            } else {
                Place::Nothing
            }
        }
    }
}
