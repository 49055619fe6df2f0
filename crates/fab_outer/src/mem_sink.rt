//! A sink over memory, for tests: it takes bytes in small pieces, and chosen calls fail.

ghost use Rattle.std.specs.Prelude.{◌≡◌, ◌<◌, ◌≤◌, [], length, max, IsTrue, IsFalse, Some, Ok, IfOk, IsOk, IsErr};
ghost use Rattle.std.specs.Prelude.{◌+◌, ◌-◌, ◌++◌, is_err, is_ok, vec_len, vec_capacity, if◌then◌else◌, OnErr};
ghost use Rattle.std.specs.Io.KnownBytes.{WriteAppends};
ghost use Rattle.fab_outer.specs.Fault.{HasCause, Rose};
ghost use Rattle.fab_outer.specs.Memory.{fails_next, portion, IsSinkStep};

use crate::mem_source::is_among;
use crate::{Failed, Sink};
use std::alloc::{AllocError, Global};
use std::marker::Model;

/// A sink over memory. At most `piece` bytes, and at least one, go at a call, and the calls of the given numbers fail.
///
/// No other call fails while there is room for its bytes: with room for all that comes, exactly the given ones do. One
/// that takes memory and finds none fails too, and is counted.
#[derive(Debug, Drop)]
pub struct MemSink {
    taken: Vec<u8>,
    piece: usize,
    fail: Vec<u32>,
    calls: u64,
    failed: u64,
}

impl Model for MemSink {
    ghost use Rattle.std.specs.Prelude.{◌-◌, max, vec_len, vec_capacity};
    ghost use Rattle.fab_outer.specs.Memory.{SinkState};

    ghost Value = { SinkState };

    ghost view = { λ s. record {
      taken = s.taken.items;
      room = vec_capacity s.taken - vec_len s.taken;
      piece = max s.piece 1;
      fail = s.fail.items;
      calls = s.calls;
      failed = s.failed;
    } };
}

impl MemSink {
    /// A sink that has taken nothing, with room for so many bytes. The first call has number 1.
    pub fn with_room(
        alloc: Global,
        room: usize,
        piece: usize,
        fail: Vec<u32>,
    ) -> Result<MemSink, AllocError>
        ensures { IfOk result (λ s. s ≡ record {
          taken = [];
          room = room;
          piece = max piece 1;
          fail = fail.items;
          calls = 0;
          failed = 0;
        }) }
    {
        Ok(MemSink {
            taken: Vec::with_capacity(alloc, room)?,
            piece,
            fail,
            calls: 0,
            failed: 0,
        })
    }

    /// A sink that has taken nothing, and takes memory as bytes come. The first call has number 1.
    pub fn new(alloc: Global, piece: usize, fail: Vec<u32>) -> MemSink
        ensures { result ≡ record {
          taken = [];
          room = result.room;
          piece = max piece 1;
          fail = fail.items;
          calls = 0;
          failed = 0;
        } }
    {
        MemSink {
            taken: Vec::new(alloc),
            piece,
            fail,
            calls: 0,
            failed: 0,
        }
    }

    /// The bytes that it took.
    pub fn taken(&self) -> &[u8]
        ensures { result.now ≡ self.now.taken }
    {
        &self.taken
    }
}

impl Sink for MemSink {
    ghost taken = { λ s. Some s.taken };

    ghost faults = { λ s. s.failed };

    fn write_some(&mut self, from: &[u8]) -> Result<usize, Failed>
        ensures bound { IfOk result (λ n. n ≤ length from.now) }
        ensures appended { WriteAppends (Some self.old.taken) (Some self.new.taken) result from.now }
        ensures cause { HasCause self.old.failed self.new.failed result }
        ensures stalled { result ≡ Ok 0 → 0 < length from.now → Rose self.old.failed self.new.failed }
        ensures fails { IsTrue (fails_next self.old.fail self.old.calls) → IsErr result }
        ensures succeeds { IsFalse (fails_next self.old.fail self.old.calls)
            → portion self.old (length from.now) ≤ self.old.room → IsOk result }
        ensures count { IfOk result (λ n. n ≡ portion self.old (length from.now)) }
        ensures room { portion self.old (length from.now) ≤ self.old.room
            → self.new.room ≡ self.old.room - (length self.new.taken - length self.old.taken) }
        ensures after { IsSinkStep self.old (is_err result) self.new }
    {
        self.calls = self.calls.saturating_add(1);
        let count = self.piece.max(1).min(from.len());
        if is_among(&self.fail, self.calls) || take_in(&mut self.taken, &from[..count]).is_err() {
            self.failed = self.failed.saturating_add(1);
            return Err(Failed);
        }
        Ok(count)
    }
}

// Takes bytes: without memory where there is room for them.
fn take_in(taken: &mut Vec<u8>, bytes: &[u8]) -> Result<(), AllocError>
    ensures items { taken.new.items ≡ (if is_ok result then taken.old.items ++ bytes.now else taken.old.items) }
    ensures full { OnErr result (vec_capacity taken.old < vec_len taken.old + length bytes.now) }
    ensures room { vec_len taken.old + length bytes.now ≤ vec_capacity taken.old
        → vec_capacity taken.new ≡ vec_capacity taken.old }
{
    if taken.capacity() - taken.len() < bytes.len() {
        return taken.extend_from_slice(bytes);
    }
    for byte in bytes {
        taken.push_reserved(*byte);
    }
    Ok(())
}
