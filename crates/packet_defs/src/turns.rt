//! Turns as bytes, and routes within a body: the number of turns, then one byte for each.

ghost use Rattle.std.specs.Prelude.{◌≡◌, ◌≤◌, ◌++◌, ◌∷◌, length, map, take, All, IfOk, IfErr, OnOk, None, Some};
ghost use Rattle.std.specs.Prelude.{IfSome, IfNone};
ghost use Rattle.net_defs.specs.Turn.{IsTurn, walk_refusal};
ghost use Rattle.net_defs.specs.Refusal.{Refuses};
ghost use Rattle.packet_defs.specs.RouteByte.{route_byte, turns_of};
ghost use Rattle.packet_defs.specs.Reading.{missing};

use crate::table::{route_byte, turn_of};
use net_defs::{FEW_TURNS, Walk, WalkFault};
use std::alloc::{AllocError, Global};

/// Why bytes can't be read as turns.
#[derive(Clone, Copy, Debug, PartialEq, Eq)]
pub enum TurnFault {
    /// A byte among them stands for no turn.
    Malformed,
    /// The turns had no room.
    NoMemory,
}

// The most turns of a route.
const MAX_TURNS: usize = 64;

/// Adds a route at the end of bytes.
pub fn push_route(bytes: &mut Vec<u8>, turns: &[i8]) -> Result<(), AllocError>
    requires short { length turns.now ≤ 64 }
    requires in_range { All IsTurn turns.now }
    ensures { OnOk result (bytes.new.items ≡ bytes.old.items ++ length turns.now ∷ map route_byte turns.now) }
{
    bytes.push(turns.len() as u8)?;
    push_turns(bytes, turns)
}

/// Adds the route bytes of turns at the end of bytes. Room is asked for once, and most routes are so short that less is
/// taken byte by byte than by a copy. Where memory runs out, the bytes stay.
pub fn push_turns(bytes: &mut Vec<u8>, turns: &[i8]) -> Result<(), AllocError>
    requires { length turns.now ≤ 64 }
    ensures { OnOk result (bytes.new.items ≡ bytes.old.items ++ map route_byte turns.now) }
{
    bytes.reserve(turns.len())?;
    for turn in turns {
        bytes.push_reserved(route_byte(*turn));
    }
    Ok(())
}

/// Writes the route bytes of as many turns.
pub fn write_turns(bytes: &mut [u8], turns: &[i8])
    requires { length bytes.old ≡ length turns.now }
    ensures { bytes.new ≡ map route_byte turns.now }
{
    for (place, turn) in turns.iter().enumerate() {
        bytes[place] = route_byte(*turn);
    }
}

/// The turns of at most 64 route bytes. `Malformed` exactly where another byte is among them; memory is taken once
/// all are known, and none for few.
pub fn walk_of(alloc: Global, bytes: &[u8]) -> Result<Walk, TurnFault>
    requires { length bytes.now ≤ 64 }
    ensures ok { IfOk result (λ walk. turns_of bytes.now ≡ Some walk) }
    ensures refused { Refuses (missing (turns_of bytes.now)) TurnFault.NoMemory result }
{
    if bytes.len() <= FEW_TURNS {
        few_of(bytes)
    } else {
        many_of(alloc, bytes)
    }
}

// The turns of few route bytes.
fn few_of(bytes: &[u8]) -> Result<Walk, TurnFault>
    requires { length bytes.now ≤ 14 }
    ensures ok { IfOk result (λ walk. turns_of bytes.now ≡ Some walk) }
    ensures refused { IfErr result (λ fault. missing (turns_of bytes.now) ≡ Some fault) }
{
    match read_turns::<FEW_TURNS>(bytes) {
        Some(turns) => Ok(Walk::of_few(bytes.len() as u8, turns)),
        None => Err(TurnFault::Malformed),
    }
}

// The turns of route bytes that may be many.
fn many_of(alloc: Global, bytes: &[u8]) -> Result<Walk, TurnFault>
    requires { length bytes.now ≤ 64 }
    ensures ok { IfOk result (λ walk. turns_of bytes.now ≡ Some walk) }
    ensures refused { Refuses (missing (turns_of bytes.now)) TurnFault.NoMemory result }
{
    match read_turns::<MAX_TURNS>(bytes) {
        Some(turns) => walk_in(alloc, &turns[..bytes.len()]),
        None => Err(TurnFault::Malformed),
    }
}

// The turns of route bytes, and zeros after them. None exactly where another byte is among them.
fn read_turns<const N: usize>(bytes: &[u8]) -> Option<[i8; N]>
    requires { length bytes.now ≤ N }
    ensures some { IfSome result (λ turns. turns_of bytes.now ≡ Some (take (length bytes.now) turns)) }
    ensures none { IfNone result (turns_of bytes.now ≡ None) }
{
    let mut turns = [0; N];
    for at in 0..bytes.len() {
        match turn_of(bytes[at]) {
            Some(turn) => turns[at] = turn,
            None => return None,
        }
    }
    Some(turns)
}

// The walk of turns that are one.
fn walk_in(alloc: Global, turns: &[i8]) -> Result<Walk, TurnFault>
    requires { walk_refusal turns.now ≡ None }
    ensures ok { IfOk result (λ walk. walk ≡ turns.now) }
    ensures refused { IfErr result (λ fault. fault ≡ TurnFault.NoMemory) }
{
    match Walk::new(alloc, turns) {
        Ok(walk) => Ok(walk),
        Err(WalkFault::NoMemory) => Err(TurnFault::NoMemory),
        Err(WalkFault::TooLong | WalkFault::TurnRange) => unreachable!(),
    }
}
