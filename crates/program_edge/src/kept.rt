//! A sink that keeps what comes, and hands it on in pieces: a system call for each command would take longer than most
//! commands do.

ghost use Rattle.std.specs.Prelude.{◌≡◌, ◌<◌, ◌≤◌, ◌+◌, ◌-◌, ◌++◌, [], length, take, drop, vec_len, vec_capacity};
ghost use Rattle.std.specs.Prelude.{Ok, IfOk, OnOk, OnErr};
ghost use Rattle.std.specs.Io.KnownBytes.{Appends, Keeps, WriteAppends, append_known};
ghost use Rattle.fab_outer.specs.Fault.{HasCause, Rose};

use fab_outer::{Failed, Sink};
use std::alloc::{AllocError, Global};

// How many bytes are kept at most.
const ROOM: usize = 8192;

/// A sink before another. What it took is what the other one took, and after that what is kept for it. Its faults are
/// those of the other one.
#[derive(Debug, Drop)]
pub struct KeptSink<K> {
    to: K,
    kept: Vec<u8>,
}

impl<K: Sink> KeptSink<K> {
    /// A sink before this one, with nothing kept.
    pub fn new(alloc: Global, to: K) -> Result<KeptSink<K>, AllocError>
    where
        K: Drop,
        ensures to { IfOk result (λ s. s.to ≡ to) }
        ensures empty { IfOk result (λ s. s.kept.items ≡ []) }
    {
        let kept = Vec::with_capacity(alloc, ROOM)?;
        Ok(KeptSink { to, kept })
    }

    /// Writes what is kept. At an `Err` the sink behind it has taken some of it, from the front, and the rest is kept.
    pub fn finish(&mut self) -> Result<(), Failed>
        // What was taken stays as it was: so it is written in order, and nothing twice.
        ensures taken { Keeps (append_known (K.taken self.old.to) self.old.kept.items)
            (append_known (K.taken self.new.to) self.new.kept.items) }
        ensures whole { OnOk result (self.new.kept.items ≡ []) }
        ensures cause { HasCause (K.faults self.old.to) (K.faults self.new.to) result }
        ensures nothing { self.old.kept.items ≡ [] → self.new ≡ self.old }
    {
        if self.kept.is_empty() {
            return Ok(());
        }
        let (written, answer) = write_out(&mut self.to, &self.kept);
        remove_front(&mut self.kept, written);
        answer
    }
}

impl<K: Sink> Sink for KeptSink<K> {
    ghost taken = { λ s. append_known (K.taken s.to) s.kept.items };

    ghost faults = { λ s. K.faults s.to };

    fn write_some(&mut self, from: &[u8]) -> Result<usize, Failed> {
        if self.kept.capacity() - self.kept.len() < from.len() {
            self.finish()?;
        }
        if self.kept.capacity() - self.kept.len() < from.len() {
            return self.to.write_some(from);
        }
        put_in(&mut self.kept, from);
        Ok(from.len())
    }
}

// Writes until all is written or a write fails, and answers how many bytes were written.
fn write_out<K: Sink>(to: &mut K, bytes: &[u8]) -> (usize, Result<(), Failed>)
    ensures bound { result.0 ≤ length bytes.now }
    ensures all { OnOk result.1 (result.0 ≡ length bytes.now) }
    ensures bytes { Appends (K.taken to.old) (K.taken to.new) (take result.0 bytes.now) }
    ensures cause { HasCause (K.faults to.old) (K.faults to.new) result.1 }
{
    let mut written = 0;
    'writing: while written < bytes.len() {
        match to.write_some(&bytes[written..]) {
            Ok(count) if count > 0 => written += count,
            _ => return (written, Err(Failed)),
        }
    }
    (written, Ok(()))
}

// Takes so many bytes away, from the front.
fn remove_front(kept: &mut Vec<u8>, count: usize)
    requires { count ≤ vec_len kept.old }
    ensures { kept.new.items ≡ drop count kept.old.items }
{
    let len = kept.len();
    kept.as_mut_slice().copy_within(count..len, 0);
    kept.truncate(len - count);
}

// Appends bytes for which there is room.
fn put_in(kept: &mut Vec<u8>, bytes: &[u8])
    requires room { vec_len kept.old + length bytes.now ≤ vec_capacity kept.old }
    ensures items { kept.new.items ≡ kept.old.items ++ bytes.now }
{
    let _ = kept.extend_from_slice(bytes);
}
