//! The line of a route.

ghost use Rattle.std.specs.Prelude.{◌≡◌, ◌≤◌, ◌<◌, ◌+◌, ◌*◌, ◌++◌, ◌∷◌, [], OnOk, IfSome, All, codes, decimal};
ghost use Rattle.std.specs.Prelude.{flat_map, length, take};
ghost use Rattle.net_defs.specs.Turn.{IsTurn};
ghost use Rattle.fab_text.specs.Written.{spaced};
ghost use Rattle.line_table.specs.Texts.{turn_text};
ghost use Rattle.run_defs.specs.LineText.{words_in};
ghost use Rattle.run_defs.specs.declared.line.Line.TheVariants.{Route};
ghost use Rattle.fab_report.specs.There.{IsHost};

use crate::room::{make_room, put};
use net_defs::Walk;
use port_graph::{Fabric, Vertex};
use std::alloc::AllocError;

// The most bytes of a turn, with the space before it.
const TURN_ROOM: usize = 4;

/// `route A B TURN ..`
pub(crate) fn route_line(
    text: &mut Vec<u8>,
    f: &Fabric,
    from: u16,
    to: u16,
    walk: &Walk,
) -> Result<(), AllocError>
    requires from { IsHost f.now from }
    requires to { IsHost f.now to }
    ensures { OnOk result (text.new.items ≡ text.old.items ++ spaced (words_in f.now (Route from to walk.now))) }
{
    let sender = f.name_of(Vertex::Host(from));
    let receiver = f.name_of(Vertex::Host(to));
    let turns = walk.turns();
    let Some(room) = route_room(sender, receiver, turns) else {
        return Err(AllocError);
    };
    let begin = make_room(text, room)?;
    let end = put_route(text, begin, sender, receiver, turns);
    text.truncate(end);
    Ok(())
}

// The most bytes of a route's line.
fn route_room(sender: &[u8], receiver: &[u8], turns: &[i8]) -> Option<usize>
    requires { length turns.now ≤ 64 }
    ensures { IfSome result (λ n. n ≡ length sender.now + length receiver.now + (7 + 4 * length turns.now)) }
{
    (sender.len() + receiver.len()).checked_add(7 + TURN_ROOM * turns.len())
}

// Puts the words of a route at a place: where they end.
fn put_route(room: &mut [u8], at: usize, sender: &[u8], receiver: &[u8], turns: &[i8]) -> usize
    requires room { at + length sender.now + length receiver.now + (7 + 4 * length turns.now) ≤ length room.old }
    requires turns { All IsTurn turns.now }
    ensures within { result ≤ length room.new }
    ensures size { length room.new ≡ length room.old }
    ensures bytes { take result room.new ≡ take at room.old ++ (spaced (codes "route" ∷ sender.now ∷ receiver.now ∷ [])
        ++ flat_map (λ t. 32 ∷ turn_text t) turns.now) }
{
    let end = put_ends(room, at, sender, receiver);
    put_turns(room, end, turns)
}

// Puts the words of a route but its turns at a place: where they end.
#[inline(always)]
fn put_ends(room: &mut [u8], at: usize, sender: &[u8], receiver: &[u8]) -> usize
    requires { at + length sender.now + length receiver.now + 7 ≤ length room.old }
    ensures end { result ≡ at + length sender.now + length receiver.now + 7 }
    ensures size { length room.new ≡ length room.old }
    ensures bytes { take result room.new ≡ take at room.old
        ++ spaced (codes "route" ∷ sender.now ∷ receiver.now ∷ []) }
{
    let name = put(room, at, b"route ");
    let behind = put(room, name, sender);
    let name = put(room, behind, b" ");
    put(room, name, receiver)
}

// Puts the turns of a route at a place: where they end.
fn put_turns(room: &mut [u8], at: usize, turns: &[i8]) -> usize
    requires room { at + 4 * length turns.now ≤ length room.old }
    requires turns { All IsTurn turns.now }
    ensures within { result ≤ length room.new }
    ensures size { length room.new ≡ length room.old }
    ensures bytes { take result room.new ≡ take at room.old ++ flat_map (λ t. 32 ∷ turn_text t) turns.now }
{
    let mut end = at;
    for turn in turns {
        end = put_turn(room, end, *turn);
    }
    end
}

// Puts a space and a turn at a place: where they end.
#[inline(always)]
fn put_turn(room: &mut [u8], at: usize, turn: i8) -> usize
    requires turn { IsTurn turn }
    requires room { at + 4 ≤ length room.old }
    ensures most { result ≤ at + 4 }
    ensures size { length room.new ≡ length room.old }
    ensures bytes { take result room.new ≡ take at room.old ++ 32 ∷ turn_text turn }
{
    if turn > 0 {
        put_signed(room, at, b'+', turn.unsigned_abs())
    } else if turn < 0 {
        put_signed(room, at, b'-', turn.unsigned_abs())
    } else {
        put(room, at, b" 0")
    }
}

// Puts a space, a sign and a number at a place: where they end. A turn has no more than 15, so its digits are known
// without a division.
#[inline(always)]
#[tactic(auto, using(std::proofs::lemmas::Fmt::decimal_digit, crate::proofs::Writing::teen))]
fn put_signed(room: &mut [u8], at: usize, sign: u8, size: u8) -> usize
    requires few { size < 20 }
    requires room { at + 4 ≤ length room.old }
    ensures most { result ≤ at + 4 }
    ensures size { length room.new ≡ length room.old }
    ensures bytes { take result room.new ≡ take at room.old ++ 32 ∷ sign ∷ decimal size }
{
    if size < 10 {
        put(room, at, &[b' ', sign, b'0' + size])
    } else {
        put(room, at, &[b' ', sign, b'1', b'0' + (size - 10)])
    }
}
