//! Reading to the end and writing all.

ghost use Rattle.std.specs.Prelude.{◌≡◌, ◌≢◌, ◌<◌, ◌≤◌, ◌+◌, ◌++◌, [], length, vec_len, vec_capacity, Ok, IfOk};
ghost use Rattle.std.specs.Prelude.{IfErr, OnOk, OnErr};
ghost use Rattle.std.specs.Prelude.{IsErrOf};
ghost use Rattle.std.specs.Io.KnownBytes.{Appends, Consumes, IsAtEnd};
ghost use Rattle.fab_outer.specs.Fault.{Rose, HasCause};
ghost use Rattle.fab_outer.specs.Whole.{IsWhole, IsLonger, HasGone, GoesOn, Appended, TakesProperPrefix};

use crate::{Failed, Sink, Source};
use std::alloc::Global;

/// Why a source wasn't read to its end.
#[derive(Clone, Copy, Debug, PartialEq, Eq)]
pub enum ReadEnd {
    /// A read failed.
    ReadFault,
    /// More bytes came than the limit.
    TooLong,
    /// Memory ran out for the bytes.
    NoMemory,
}

/// A write failed or took nothing.
#[derive(Clone, Copy, Debug, PartialEq, Eq)]
pub struct WriteFault;

// The most bytes that one read asks for.
const PIECE: usize = 65536;

/// All the bytes of a source, of which at most `limit` may come. `TooLong` exactly where one more came, which is the
/// last that is read.
///
/// It takes room for `limit` bytes before it reads any, so `NoMemory` leaves the source as it was.
pub fn read_all<S: Source>(alloc: Global, source: &mut S, limit: usize) -> Result<Vec<u8>, ReadEnd>
    ensures whole { IfOk result (λ content. IsWhole (S.left source.old) (S.left source.new) content.items) }
    ensures within { IfOk result (λ content. vec_len content ≤ limit) }
    ensures too_long { IsErrOf result ReadEnd.TooLong → IsLonger (S.left source.old) limit }
    ensures one_more { IsErrOf result ReadEnd.TooLong → HasGone (S.left source.old) (S.left source.new) (limit + 1) }
    ensures no_more { IfErr result (λ e. e ≢ ReadEnd.TooLong → GoesOn (S.left source.old) (S.left source.new) limit) }
    ensures fault { IsErrOf result ReadEnd.ReadFault → Rose (S.faults source.old) (S.faults source.new) }
    ensures unread { IsErrOf result ReadEnd.NoMemory → source.new ≡ source.old }
    ensures later { S.faults source.old ≤ S.faults source.new }
{
    let mut content = empty(alloc, limit)?;
    let mut piece = blank(alloc, PIECE)?;
    'reading: while content.len() < limit {
        let room = (limit - content.len()).min(PIECE);
        match append_some(source, &mut piece[..room], &mut content) {
            Ok(0) => return Ok(content),
            Ok(_) => {}
            Err(_) => return Err(ReadEnd::ReadFault),
        }
    }
    ended(source, &mut piece[..1], content)
}

// The content, where nothing more comes.
fn ended<S: Source>(source: &mut S, one: &mut [u8], content: Vec<u8>) -> Result<Vec<u8>, ReadEnd>
    requires { length one.old ≡ 1 }
    ensures same { IfOk result (λ whole. whole ≡ content) }
    ensures end { OnOk result (IsAtEnd (S.left source.new)) }
    ensures none { OnOk result (Consumes (S.left source.old) (S.left source.new) []) }
    ensures one_more { IsErrOf result ReadEnd.TooLong → HasGone (S.left source.old) (S.left source.new) 1 }
    ensures no_more { IfErr result (λ e. e ≢ ReadEnd.TooLong → HasGone (S.left source.old) (S.left source.new) 0) }
    ensures fault { IsErrOf result ReadEnd.ReadFault → Rose (S.faults source.old) (S.faults source.new) }
    ensures no_memory { IfErr result (λ e. e ≢ ReadEnd.NoMemory) }
    ensures later { S.faults source.old ≤ S.faults source.new }
{
    match source.read_some(one) {
        Ok(0) => Ok(content),
        Ok(_) => Err(ReadEnd::TooLong),
        Err(_) => Err(ReadEnd::ReadFault),
    }
}

// No bytes, with room for so many.
fn empty(alloc: Global, room: usize) -> Result<Vec<u8>, ReadEnd>
    ensures none { IfOk result (λ content. content.items ≡ []) }
    ensures room { IfOk result (λ content. room ≤ vec_capacity content) }
    ensures err { IfErr result (λ e. e ≡ ReadEnd.NoMemory) }
{
    match Vec::with_capacity(alloc, room) {
        Ok(content) => Ok(content),
        Err(_) => Err(ReadEnd::NoMemory),
    }
}

// A piece to read into.
fn blank(alloc: Global, len: usize) -> Result<Vec<u8>, ReadEnd>
    ensures ok { IfOk result (λ piece. vec_len piece ≡ len) }
    ensures err { IfErr result (λ e. e ≡ ReadEnd.NoMemory) }
{
    match vec![in alloc; 0u8; len] {
        Ok(piece) => Ok(piece),
        Err(_) => Err(ReadEnd::NoMemory),
    }
}

// Reads once into the piece, appends the bytes that came, for which there is room, and answers how many.
fn append_some<S: Source>(
    source: &mut S,
    piece: &mut [u8],
    content: &mut Vec<u8>,
) -> Result<usize, Failed>
    requires room { vec_len content.old + length piece.old ≤ vec_capacity content.old }
    ensures came { IfOk result (λ n. Appended (S.left source.old)
        (S.left source.new) content.old.items content.new.items n) }
    ensures end { result ≡ Ok 0 → 0 < length piece.new → IsAtEnd (S.left source.new) }
    ensures bound { IfOk result (λ n. n ≤ length piece.new) }
    ensures goes_on { GoesOn (S.left source.old) (S.left source.new) (length piece.new) }
    ensures fault { OnErr result (Rose (S.faults source.old) (S.faults source.new)) }
    ensures later { S.faults source.old ≤ S.faults source.new }
    ensures capacity { vec_capacity content.old ≤ vec_capacity content.new }
{
    let count = source.read_some(piece)?;
    put_in(content, &piece[..count]);
    Ok(count)
}

// Appends bytes for which there is room.
fn put_in(content: &mut Vec<u8>, bytes: &[u8])
    requires room { vec_len content.old + length bytes.now ≤ vec_capacity content.old }
    ensures items { content.new.items ≡ content.old.items ++ bytes.now }
    ensures capacity { vec_capacity content.old ≤ vec_capacity content.new }
{
    let _ = content.extend_from_slice(bytes);
}

/// Writes all the bytes. At an `Err` the sink has taken some of them, from the front, and not all.
pub fn write_all<K: Sink>(sink: &mut K, bytes: &[u8]) -> Result<(), WriteFault>
    ensures all { OnOk result (Appends (K.taken sink.old) (K.taken sink.new) bytes.now) }
    ensures part { OnErr result (TakesProperPrefix (K.taken sink.old) (K.taken sink.new) bytes.now) }
    ensures cause { HasCause (K.faults sink.old) (K.faults sink.new) result }
{
    let mut rest = bytes;
    'writing: while !rest.is_empty() {
        match sink.write_some(rest) {
            Ok(count) if count > 0 => rest = rest.split_at(count).1,
            _ => return Err(WriteFault),
        }
    }
    Ok(())
}
