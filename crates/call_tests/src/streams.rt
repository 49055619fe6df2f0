//! std's readers and writers as a source and a sink, and a sink that takes memory as bytes come.

use fab_outer::{
    Failed, MemSink, ReadEnd, Sink, StdSink, StdSource, WriteFault, read_all, write_all,
};
use std::io::{Error, ErrorKind, Read, Write};
use std::test::Fail;

// Fails at each read, and at each flush after a write.
#[derive(Drop)]
struct Broken;

impl Read for Broken {
    fn read(&mut self, _into: &mut [u8]) -> std::io::Result<usize> {
        Err(Error::from(ErrorKind::BrokenPipe))
    }
}

impl Write for Broken {
    fn write(&mut self, from: &[u8]) -> std::io::Result<usize> {
        Ok(from.len())
    }

    fn flush(&mut self) -> std::io::Result<()> {
        Err(Error::from(ErrorKind::BrokenPipe))
    }
}

#[test]
fn a_reader_is_read_to_its_end_and_its_failure_told(rt: HostRuntime) -> Result<(), Fail> {
    let mut source = StdSource::new("abc".as_bytes());
    let content = read_all(rt.alloc(), &mut source, 9)?;
    let failed = read_all(rt.alloc(), &mut StdSource::new(Broken), 9);
    assert!(rt; content.as_slice() == b"abc".as_slice());
    assert!(rt; matches!(failed, Err(ReadEnd::ReadFault)));
    Ok(())
}

#[test]
fn a_writer_gets_the_bytes_and_its_failed_flush_is_told(rt: HostRuntime) -> Result<(), Fail> {
    let mut written: Vec<u8> = Vec::new(rt.alloc());
    {
        let mut sink = StdSink::new(&mut written);
        write_all(&mut sink, b"abc")?;
        write_all(&mut sink, b"de")?;
    }
    let failed = write_all(&mut StdSink::new(Broken), b"abc");
    assert!(rt; written.as_slice() == b"abcde".as_slice() && failed == Err(WriteFault));
    Ok(())
}

#[test]
fn a_sink_over_memory_fails_at_the_call_that_it_is_told_alone(rt: HostRuntime) -> Result<(), Fail> {
    let mut sink = MemSink::new(rt.alloc(), 2, vec![in rt.alloc(); 2]?);
    let first = sink.write_some(b"abc");
    let second = sink.write_some(b"c");
    let third = sink.write_some(b"c");
    assert!(rt; matches!(first, Ok(2)) && matches!(second, Err(Failed)) && matches!(third, Ok(1)));
    assert!(rt; sink.taken() == b"abc".as_slice());
    Ok(())
}
