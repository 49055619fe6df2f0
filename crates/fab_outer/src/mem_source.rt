//! A source over memory, for tests: it moves bytes in small pieces, and chosen calls fail.

ghost use Rattle.std.specs.Prelude.{◌≡◌, ◌≤◌, length, take, max, nat_eq, Some, IfOk, if◌then◌else◌, is_err};
ghost use Rattle.std.specs.List.{list_any};
ghost use Rattle.std.specs.Io.KnownBytes.{ReadConsumes};
ghost use Rattle.fab_outer.specs.Fault.{HasCause};
ghost use Rattle.fab_outer.specs.Memory.{fails_next, source_failed, source_moved, amount};

use crate::{Failed, Source};
use std::marker::Model;

/// A source over memory. At most `piece` bytes, and at least one, go at a call, and the calls of the given numbers
/// fail.
#[derive(Debug, Drop)]
pub struct MemSource {
    content: Vec<u8>,
    read: usize,
    piece: usize,
    fail: Vec<u32>,
    calls: u64,
    failed: u64,
}

impl Model for MemSource {
    ghost use Rattle.std.specs.Prelude.{drop, ◌≤◌, length, max};
    ghost use Rattle.fab_outer.specs.Memory.{SourceState};

    ghost Value = { SourceState };

    ghost view = { λ s. record {
      left = drop s.read s.content.items;
      piece = max s.piece 1;
      fail = s.fail.items;
      calls = s.calls;
      failed = s.failed;
    } };

    ghost invariant = { λ s. s.read ≤ length s.content.items };
}

impl MemSource {
    /// A source of this content. The first call has number 1.
    pub fn new(content: Vec<u8>, piece: usize, fail: Vec<u32>) -> MemSource
        ensures { result ≡ record {
          left = content.items;
          piece = max piece 1;
          fail = fail.items;
          calls = 0;
          failed = 0;
        } }
    {
        MemSource {
            content,
            read: 0,
            piece,
            fail,
            calls: 0,
            failed: 0,
        }
    }
}

impl Source for MemSource {
    ghost left = { λ s. Some s.left };

    ghost faults = { λ s. s.failed };

    fn read_some(&mut self, into: &mut [u8]) -> Result<usize, Failed>
        ensures bound { IfOk result (λ n. n ≤ length into.new) }
        ensures moved { ReadConsumes (Some self.old.left) (Some self.new.left) result into.new }
        ensures cause { HasCause self.old.failed self.new.failed result }
        ensures fails { is_err result ≡ fails_next self.old.fail self.old.calls }
        ensures count { IfOk result (λ n. n ≡ amount self.old (length into.new)) }
        ensures after { self.new ≡ (if is_err result then source_failed self.old
            else source_moved self.old (length into.new)) }
    {
        self.calls = self.calls.saturating_add(1);
        if is_among(&self.fail, self.calls) {
            self.failed = self.failed.saturating_add(1);
            return Err(Failed);
        }
        let left = &self.content[self.read..];
        let count = self.piece.max(1).min(into.len()).min(left.len());
        copy_front(into, left, count);
        self.read += count;
        Ok(count)
    }
}

// Whether a call of this number fails.
pub(crate) fn is_among(fail: &[u32], call: u64) -> bool
    ensures { result ≡ list_any (λ number. nat_eq number call) fail.now }
{
    fail.iter().any(|number| u64::from(*number) == call)
}

// Copies so many bytes to the front of a piece.
fn copy_front(into: &mut [u8], from: &[u8], count: usize)
    requires room { count ≤ length into.old }
    requires enough { count ≤ length from.now }
    ensures { take count into.new ≡ take count from.now }
{
    into[..count].copy_from_slice(&from[..count]);
}
