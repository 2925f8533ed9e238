//! The ends of the program in memory, and those over a reader and a writer.
use std::io::{self, Read, Write};
use std::test::Fail;
use wasp_io::{Given, MemSink, MemSource, Sink, Source, StdSink, StdSource, Taken};

#[test]
fn a_source_in_memory_gives_chunks_and_fails_at_its_numbers(rt: HostRuntime) -> Result<(), Fail> {
    let mut source = MemSource::new(rt.alloc(), b"PLAN\n", 3, &[2])?;
    let mut room = [0u8; 8];
    assert_eq!(rt; source.take(&mut room), Taken::Bytes(3));
    assert_eq!(rt; room, *b"PLA\0\0\0\0\0");
    assert_eq!(rt; source.take(&mut room), Taken::Failed);
    Ok(())
}

#[test]
fn a_source_in_memory_gives_its_bytes_and_ends(rt: HostRuntime) -> Result<(), Fail> {
    let mut source = MemSource::new(rt.alloc(), b"PLAN\n", 3, &[])?;
    let mut room = [0u8; 8];
    assert_eq!(rt; source.take(&mut room), Taken::Bytes(3));
    assert_eq!(rt; source.take(&mut room), Taken::Bytes(2));
    assert_eq!(rt; room, *b"N\nA\0\0\0\0\0");
    assert_eq!(rt; source.take(&mut room), Taken::End);
    Ok(())
}

#[test]
fn a_sink_in_memory_fails_at_its_numbers(rt: HostRuntime) -> Result<(), Fail> {
    let mut sink = MemSink::new(rt.alloc(), 5, 4, &[2])?;
    assert_eq!(rt; sink.put(b"PLAN 1\n"), Given::Wrote(4));
    assert_eq!(rt; sink.put(b" 1\n"), Given::Failed);
    assert_eq!(rt; sink.bytes(), b"PLAN".as_slice());
    Ok(())
}

#[test]
fn a_sink_in_memory_takes_chunks_and_fails_at_a_full_room(rt: HostRuntime) -> Result<(), Fail> {
    let mut sink = MemSink::new(rt.alloc(), 5, 4, &[])?;
    assert_eq!(rt; sink.put(b"PLAN 1\n"), Given::Wrote(4));
    assert_eq!(rt; sink.put(b" 1\n"), Given::Wrote(1));
    assert_eq!(rt; sink.put(b"1\n"), Given::Failed);
    assert_eq!(rt; sink.bytes(), b"PLAN ".as_slice());
    Ok(())
}

#[derive(Drop)]
struct Broken;

impl Read for Broken {
    fn read(&mut self, _room: &mut [u8]) -> io::Result<usize> {
        Err(io::Error::from(io::ErrorKind::Other))
    }
}

#[test]
fn a_reader_is_a_source(rt: HostRuntime) {
    let mut source = StdSource::new(b"END".as_slice());
    let mut room = [0u8; 8];
    assert_eq!(rt; source.take(&mut room), Taken::Bytes(3));
    assert_eq!(rt; room, *b"END\0\0\0\0\0");
    assert_eq!(rt; source.take(&mut room), Taken::End);
    assert_eq!(rt; StdSource::new(Broken).take(&mut room), Taken::Failed);
}

#[derive(Drop)]
struct Full;

impl Write for Full {
    fn write(&mut self, _piece: &[u8]) -> io::Result<usize> {
        Ok(0)
    }

    fn flush(&mut self) -> io::Result<()> {
        Ok(())
    }
}

#[test]
fn a_writer_is_a_sink(rt: HostRuntime) {
    let mut bytes = Vec::new(rt.alloc());
    assert_eq!(rt; StdSink::new(&mut bytes).put(b"KEYS 0\n"), Given::Wrote(7));
    assert_eq!(rt; bytes.as_slice(), b"KEYS 0\n".as_slice());
    assert_eq!(rt; StdSink::new(Full).put(b"KEYS 0\n"), Given::Failed);
}

/// A writer that takes at most three bytes of a piece.
#[derive(Drop)]
struct Narrow {
    bytes: Vec<u8>,
}

impl Write for Narrow {
    fn write(&mut self, piece: &[u8]) -> io::Result<usize> {
        let count = piece.len().min(3);
        self.bytes.write(&piece[..count])
    }

    fn flush(&mut self) -> io::Result<()> {
        Ok(())
    }
}

#[test]
fn a_writer_that_takes_part_of_a_piece_loses_nothing(rt: HostRuntime) {
    let mut narrow = Narrow {
        bytes: Vec::new(rt.alloc()),
    };
    let mut sink = StdSink::new(&mut narrow);
    assert_eq!(rt; sink.put(b"KEYS 0\n"), Given::Wrote(3));
    assert_eq!(rt; sink.put(b"S 0\n"), Given::Wrote(3));
    assert_eq!(rt; sink.put(b"\n"), Given::Wrote(1));
    assert_eq!(rt; narrow.bytes.as_slice(), b"KEYS 0\n".as_slice());
}
