//! The trusted edge: std's readers and writers as a source and a sink.
//!
//! What a reader has left, and what a writer holds, is known where its type shows it, as over memory: a file and a
//! terminal show nothing, so of these the clauses say the counts alone.

ghost use Rattle.std.specs.Prelude.{◌≡◌, ◌<◌, ◌≤◌, ℕ, List, length, take, Option, None, Ok, IfOk, OnOk, OnErr, is_err};
ghost use Rattle.std.specs.Prelude.{if◌then◌else◌};
ghost use Rattle.std.specs.Io.KnownBytes.{Appends, ReadConsumes, WriteAppends};
ghost use Rattle.fab_outer.specs.Fault.{HasCause, Rose, one_more};
ghost use Rattle.fab_outer.specs.Whole.{TakesPrefix};

use crate::{Failed, Sink, Source};
use std::io::{Read, Write};

/// A source over any reader of std. Each `Err` of the reader is a fault, and never the end.
#[derive(Debug, Drop)]
pub struct StdSource<R> {
    inner: R,
    faults: u64,
}

impl<R: Read> StdSource<R> {
    /// The reader as a source, with no fault so far.
    pub fn new(inner: R) -> StdSource<R>
        ensures inner { result.inner ≡ inner }
        ensures none { result.faults ≡ 0 }
    {
        StdSource { inner, faults: 0 }
    }
}

impl<R: Read> Source for StdSource<R> {
    ghost left = { λ s. R.remaining s.inner };

    ghost faults = { λ s. s.faults };

    fn read_some(&mut self, into: &mut [u8]) -> Result<usize, Failed>
        ensures bound { IfOk result (λ n. n ≤ length into.new) }
        ensures moved { ReadConsumes (R.remaining self.old.inner) (R.remaining self.new.inner) result into.new }
        ensures cause { HasCause self.old.faults self.new.faults result }
        ensures counted { self.new.faults ≡ (if is_err result then one_more self.old.faults else self.old.faults) }
    {
        match self.inner.read(into) {
            Ok(count) => Ok(count),
            Err(_) => {
                self.faults = counted(self.faults);
                Err(Failed)
            }
        }
    }
}

/// A sink over any writer of std. It flushes after each write. Each `Err` is a fault, and so is a write that takes
/// nothing.
///
/// It shows no content as a sink: where a write took bytes and the flush after it failed, the writer holds bytes of a
/// call that answers `Err`.
#[derive(Debug, Drop)]
pub struct StdSink<W> {
    inner: W,
    faults: u64,
}

impl<W: Write> StdSink<W> {
    /// The writer as a sink, with no fault so far.
    pub fn new(inner: W) -> StdSink<W>
        ensures inner { result.inner ≡ inner }
        ensures none { result.faults ≡ 0 }
    {
        StdSink { inner, faults: 0 }
    }
}

impl<W: Write> Sink for StdSink<W> {
    ghost taken = { λ _. None };

    ghost faults = { λ s. s.faults };

    fn write_some(&mut self, from: &[u8]) -> Result<usize, Failed>
        ensures bound { IfOk result (λ n. n ≤ length from.now) }
        ensures appended { WriteAppends None None result from.now }
        ensures cause { HasCause self.old.faults self.new.faults result }
        ensures stalled { result ≡ Ok 0 → 0 < length from.now → Rose self.old.faults self.new.faults }
        // As many bytes as are reported went to the writer, and no others.
        ensures written { IfOk result (λ n.
            Appends (W.contents self.old.inner) (W.contents self.new.inner) (take n from.now)) }
        ensures part { OnErr result (TakesPrefix (W.contents self.old.inner) (W.contents self.new.inner) from.now) }
        ensures failure_counted { OnErr result (self.new.faults ≡ one_more self.old.faults) }
        ensures stall_counted { result ≡ Ok 0 → 0 < length from.now → self.new.faults ≡ one_more self.old.faults }
        ensures success_not_counted { IfOk result (λ n. 0 < n → self.new.faults ≡ self.old.faults) }
        ensures nothing_not_counted { OnOk result (length from.now ≡ 0 → self.new.faults ≡ self.old.faults) }
    {
        match write_through(&mut self.inner, from) {
            Ok(count) if count > 0 || from.is_empty() => Ok(count),
            Ok(count) => {
                self.faults = counted(self.faults);
                Ok(count)
            }
            Err(_) => {
                self.faults = counted(self.faults);
                Err(Failed)
            }
        }
    }
}

// Writes to a writer, and flushes it where it took bytes, or had none to take.
fn write_through<W: Write>(writer: &mut W, from: &[u8]) -> std::io::Result<usize>
    ensures bound { IfOk result (λ n. n ≤ length from.now) }
    ensures written { IfOk result (λ n. Appends (W.contents writer.old) (W.contents writer.new) (take n from.now)) }
    ensures part { OnErr result (TakesPrefix (W.contents writer.old) (W.contents writer.new) from.now) }
{
    let count = writer.write(from)?;
    if count > 0 || from.is_empty() {
        writer.flush()?;
    }
    Ok(count)
}

// A count after one more fault.
fn counted(faults: u64) -> u64
    ensures count { result ≡ one_more faults }
    ensures later { faults ≤ result }
{
    faults.saturating_add(1)
}
