//! One line after the other.
ghost use Rattle.std.specs.Prelude.{◌≡◌, ℕ, List, [], IfOk, OnErr, false};
ghost use Rattle.std.specs.Io.KnownBytes.{Consumes};
ghost use Rattle.wasp_io.specs.Causes.{HasCause};
ghost use Rattle.line_reader.specs.Lines.{IsUnbroken};
ghost use Rattle.line_reader.specs.Reading.{ahead, is_final, LineTextFrom, LineFrom};

use crate::bytes::{ByteReader, Next};
use wasp_fixed::OutOfMemory;
use wasp_io::Source;

/// What was found where a line was looked for. In each case the bytes read stand in the buffer.
#[derive(Clone, Copy, Debug, PartialEq, Eq)]
pub enum Found {
    /// A line with its line feed, which is left out of the buffer.
    Line,
    /// The last line, which has no line feed. No other follows.
    Last,
    /// A line of more than 4,096 bytes.
    Long,
    /// No line: the source ended.
    End,
    /// The source failed; the bytes before it are a part of a line.
    Failed,
}

/// The most bytes of a line, without its line feed.
pub const LONGEST_LINE: usize = 4096;

fn gather<S: Source>(
    reader: &mut ByteReader,
    source: &mut S,
    line: &mut Vec<u8>,
) -> Result<Found, OutOfMemory>
    requires open { S.ended source.old ≡ false }
    ensures text { IfOk result (λ found. LineTextFrom (ahead reader.old (S.left source.old)) (ahead reader.new (S.left source.new)) line.new.items found) }
    ensures unbroken { IsUnbroken line.new.items }
    ensures err { OnErr result ((part : List ℕ) × Consumes (ahead reader.old (S.left source.old)) (ahead reader.new (S.left source.new)) part) }
    ensures cause { HasCause (S.faults source.old) (S.faults source.new) (result ≡ Ok Found.Failed) }
    ensures ended { IfOk result (λ found. S.ended source.new ≡ is_final found) }
    ensures sure { S.sure source.new ≡ S.sure source.old }
    ensures nothing_kept { result ≡ Ok Found.Failed → reader.new ≡ [] }
{
    line.clear();
    for _ in 0..=LONGEST_LINE {
        match reader.next(source) {
            Next::Byte(b'\n') => return Ok(Found::Line),
            Next::Byte(byte) => line.push(byte)?,
            Next::Failed => return Ok(Found::Failed),
            Next::End => {
                return Ok(if line.is_empty() {
                    Found::End
                } else {
                    Found::Last
                });
            }
        }
    }
    Ok(Found::Long)
}

/// Reads the next line, without its line feed, into the buffer, whatever it held. A line is given up as
/// long as soon as 4,097 bytes of it are read, and nothing more is taken. After `Last`, `End` or
/// `Failed` no call may follow. After an `Err`, want of memory, some bytes are gone from the source and
/// the buffer, so no call is to follow.
pub fn next_line<S: Source>(
    reader: &mut ByteReader,
    source: &mut S,
    line: &mut Vec<u8>,
) -> Result<Found, OutOfMemory>
    requires open { S.ended source.old ≡ false }
    ensures line { IfOk result (λ found. LineFrom (ahead reader.old (S.left source.old)) (ahead reader.new (S.left source.new)) line.new.items found) }
    ensures err { OnErr result ((part : List ℕ) × Consumes (ahead reader.old (S.left source.old)) (ahead reader.new (S.left source.new)) part) }
    ensures cause { HasCause (S.faults source.old) (S.faults source.new) (result ≡ Ok Found.Failed) }
    ensures ended { IfOk result (λ found. S.ended source.new ≡ is_final found) }
    ensures sure { S.sure source.new ≡ S.sure source.old }
    ensures nothing_kept { result ≡ Ok Found.Failed → reader.new ≡ [] }
{
    gather(reader, source, line)
}
