//! The lines of a source, in any pieces.
ghost use Rattle.std.specs.Prelude.{◌≡◌, IfOk, false};
ghost use Rattle.line_reader.specs.Reading.{is_final};

use line_reader::{ByteReader, Found, next_line};
use std::alloc::Global;
use std::test::Fail;
use wasp_io::{MemSource, Source};

fn next(reader: &mut ByteReader, source: &mut MemSource, line: &mut Vec<u8>) -> Result<Found, Fail>
    requires open { ⟦<MemSource as Source>⟧.ended source.old ≡ false }
    ensures ended { IfOk result (λ found. ⟦<MemSource as Source>⟧.ended source.new ≡ is_final found) }
{
    Ok(next_line(reader, source, line)?)
}

fn long_line(alloc: Global, bytes: usize) -> Result<Found, Fail> {
    let mut text = Vec::new(alloc);
    for _ in 0..bytes {
        text.push(b'#')?;
    }
    let mut source = MemSource::new(alloc, &text, 100, &[])?;
    let mut line = Vec::new(alloc);
    next(&mut ByteReader::new(), &mut source, &mut line)
}

#[test]
fn lines_come_in_any_pieces(rt: HostRuntime) -> Result<(), Fail> {
    for chunk in 1..9usize {
        let mut source = MemSource::new(rt.alloc(), b"PLAN\n\nEND", chunk, &[])?;
        let mut reader = ByteReader::new();
        let mut line = Vec::new(rt.alloc());
        assert_eq!(rt; next(&mut reader, &mut source, &mut line)?, Found::Line);
        assert_eq!(rt; line.as_slice(), b"PLAN".as_slice());
        assert_eq!(rt; next(&mut reader, &mut source, &mut line)?, Found::Line);
        assert_eq!(rt; line.len(), 0);
        assert_eq!(rt; next(&mut reader, &mut source, &mut line)?, Found::Last);
        assert_eq!(rt; line.as_slice(), b"END".as_slice());
    }
    Ok(())
}

#[test]
fn a_line_of_4097_bytes_is_long(rt: HostRuntime) -> Result<(), Fail> {
    assert_eq!(rt; long_line(rt.alloc(), 4_096)?, Found::Last);
    assert_eq!(rt; long_line(rt.alloc(), 4_097)?, Found::Long);
    assert_eq!(rt; long_line(rt.alloc(), 0)?, Found::End);
    Ok(())
}
