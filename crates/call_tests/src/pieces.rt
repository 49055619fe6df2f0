//! std's readers and writers that move a byte a call, and then none, or fail, as a source and a sink.

ghost use Rattle.std.specs.Prelude.{◌≤◌, min, IfOk};

use fab_outer::{ReadEnd, StdSink, StdSource, WriteFault, read_all, write_all};
use std::io::{Error, ErrorKind, Read, Write};
use std::test::Fail;

// Moves a byte a call, so many times. Then each call moves none, or fails.
#[derive(Drop)]
struct Drops {
    left: usize,
    fails: bool,
}

impl Drops {
    // Counts a call, and answers how many bytes it moves.
    fn moved(&mut self, room: usize) -> std::io::Result<usize>
        ensures { IfOk result (λ n. n ≤ min room 1) }
    {
        if self.left > 0 && room > 0 {
            self.left -= 1;
            Ok(1)
        } else if self.fails {
            Err(Error::from(ErrorKind::BrokenPipe))
        } else {
            Ok(0)
        }
    }
}

impl Read for Drops {
    fn read(&mut self, into: &mut [u8]) -> std::io::Result<usize> {
        self.moved(into.len())
    }
}

impl Write for Drops {
    fn write(&mut self, from: &[u8]) -> std::io::Result<usize> {
        self.moved(from.len())
    }

    fn flush(&mut self) -> std::io::Result<()> {
        Ok(())
    }
}

// So many bytes, and then none.
fn giving(left: usize) -> Drops {
    Drops { left, fails: false }
}

// So many bytes, and then failures.
fn failing(left: usize) -> Drops {
    Drops { left, fails: true }
}

#[test]
fn a_reader_of_a_byte_a_call_is_read_to_its_end(rt: HostRuntime) -> Result<(), Fail> {
    let whole = read_all(rt.alloc(), &mut StdSource::new(giving(3)), 3)?;
    let none = read_all(rt.alloc(), &mut StdSource::new(giving(0)), 3)?;
    let failed = read_all(rt.alloc(), &mut StdSource::new(failing(2)), 3);
    assert!(rt; whole.len() == 3 && none.is_empty() && matches!(failed, Err(ReadEnd::ReadFault)));
    Ok(())
}

#[test]
fn a_reader_is_read_one_byte_past_the_limit_at_most(rt: HostRuntime) -> Result<(), Fail> {
    let mut reader = giving(9);
    let long = read_all(rt.alloc(), &mut StdSource::new(&mut reader), 3);
    assert!(rt; matches!(long, Err(ReadEnd::TooLong)) && reader.left == 5);
    Ok(())
}

#[test]
fn a_writer_of_a_byte_a_call_is_given_all_or_told(rt: HostRuntime) -> Result<(), Fail> {
    let mut writer = giving(9);
    let whole = write_all(&mut StdSink::new(&mut writer), b"abc");
    let stalled = write_all(&mut StdSink::new(giving(2)), b"abc");
    let failed = write_all(&mut StdSink::new(failing(2)), b"abc");
    assert!(rt; whole == Ok(()) && writer.left == 6);
    assert!(rt; stalled == Err(WriteFault) && failed == Err(WriteFault));
    Ok(())
}
