//! Far ends of the ports of classes.

ghost use Rattle.std.specs.Prelude.{◌≡◌, ◌≢◌, ◌+◌, ◌*◌, ◌<◌, ◌≤◌, ℤ, pos, ◌+ℤ◌, ◌-ℤ◌, length, vec_len, vec_capacity};
ghost use Rattle.std.specs.Prelude.{None, Some};
ghost use Rattle.net_defs.specs.Turn.{IsTurn};
ghost use Rattle.replicate_merge.specs.Ends.{place_in, place_of, end_at, known_ends, Puts, MovesEnd};
ghost use Rattle.replicate_merge.specs.Work.{MovesEnds};
ghost use Rattle.replicate_merge.specs.declared.way.Spot.TheVariants.{Port};

use crate::meeting::Meeting;
use port_align::{NodePort, PortTable};

/// The places of a class, one for each port from -15 to 15.
pub(crate) const PLACES: usize = 31;

// The port of the middle place is 0.
const MIDDLE: i16 = 15;

// The place of a port among those of its class.
fn place_in(port: i16) -> usize
    requires { IsTurn port }
    ensures value { result ≡ place_in port }
    ensures inside { result < 31 }
{
    (port + MIDDLE) as usize
}

// The port at a place of its class.
fn port_at(place: usize) -> i16
    requires { place < 31 }
    ensures value { result ≡ pos place -ℤ pos 15 }
    ensures turn { IsTurn result }
{
    place as i16 - MIDDLE
}

// A port of a class as one of another, whose ports lie so far from its own.
fn port_moved(port: i16, by: i16) -> i16
    requires turn { IsTurn port }
    requires small { IsTurn by }
    ensures { result ≡ port +ℤ by }
{
    port + by
}

/// The far end that is known of a port of a class.
pub(crate) fn end_at(ends: &PortTable, class: u32, port: i16) -> Option<NodePort>
    requires turn { IsTurn port }
    requires inside { place_of class port < length ends.now.items }
    ensures { result ≡ end_at ends.now.items class port }
{
    ends.at_port(class as usize, place_in(port))
}

/// Keeps the far end of a port, or that none is known.
pub(crate) fn set_end(ends: &mut PortTable, class: u32, port: i16, end: Option<NodePort>)
    requires turn { IsTurn port }
    requires inside { place_of class port < length ends.old.items }
    ensures puts { Puts (known_ends ends.old.items) (known_ends ends.new.items) (Port class port) end }
    ensures same { length ends.new.items ≡ length ends.old.items }
{
    ends.set_port(class as usize, place_in(port), end);
}

/// Moves the ends of one class to another, whose ports lie so far from its own. Where both have one, the two are to
/// be one port. Of most classes that are moved one end is known, and its place alone is looked at.
pub(crate) fn move_ends(ends: &mut PortTable, todo: &mut Vec<Meeting>, from: u32, to: u32, by: i16)
    requires two { from ≢ to }
    requires first { 31 * from + 31 ≤ length ends.old.items }
    requires second { 31 * to + 31 ≤ length ends.old.items }
    requires in_range { (p : ℤ) → end_at ends.old.items from p ≢ None → IsTurn (p +ℤ by) }
    requires small { IsTurn by }
    requires room { vec_len todo.old + 31 ≤ vec_capacity todo.old }
    ensures moves { MovesEnds from to by (known_ends ends.old.items) (known_ends ends.new.items) todo.old.items
        todo.new.items }
    ensures same { length ends.new.items ≡ length ends.old.items }
    ensures few { vec_len todo.new ≤ vec_len todo.old + 31 }
    ensures capacity { vec_capacity todo.new ≡ vec_capacity todo.old }
{
    let known = ends.span(from as usize);
    for place in known.0..known.1 {
        let port = port_at(place);
        move_end(ends, todo, from, port, to, port_moved(port, by));
    }
}

// Moves the end of one port to a port of another class.
fn move_end(ends: &mut PortTable, todo: &mut Vec<Meeting>, from: u32, port: i16, to: u32, into: i16)
    requires two { from ≢ to }
    requires first { 31 * from + 31 ≤ length ends.old.items }
    requires second { 31 * to + 31 ≤ length ends.old.items }
    requires turn { IsTurn port }
    requires in_range { end_at ends.old.items from port ≢ None → IsTurn into }
    requires room { vec_len todo.old < vec_capacity todo.old }
    ensures moves { MovesEnd from to port into (known_ends ends.old.items) (known_ends ends.new.items) todo.old.items
        todo.new.items }
    ensures same { length ends.new.items ≡ length ends.old.items }
    ensures few { vec_len todo.new ≤ vec_len todo.old + 1 }
    ensures capacity { vec_capacity todo.new ≡ vec_capacity todo.old }
{
    let Some(second) = end_at(ends, from, port) else {
        return;
    };
    set_end(ends, from, port, None);
    match end_at(ends, to, into) {
        None => set_end(ends, to, into, Some(second)),
        Some(first) => todo.push_reserved(Meeting { first, second }),
    }
}
