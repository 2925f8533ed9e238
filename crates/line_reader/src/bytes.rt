//! One byte after the other, out of a source that gives pieces.
ghost use Rattle.std.specs.Prelude.{◌≡◌, ◌≤◌, List, ℕ, [], ◌∷◌, drop, false, take};
ghost use Rattle.wasp_io.specs.Causes.{HasCause};

use std::marker::Model;
use wasp_io::{Source, Taken};

/// What comes next of a source: a byte, its end, or a fault.
#[derive(Clone, Copy, Debug, PartialEq, Eq)]
pub enum Next {
    Byte(u8),
    End,
    Failed,
}

/// The bytes that a source gave and that were not read yet; contracts see the list of them.
/// It holds at most 512 bytes, and takes no memory.
#[derive(Drop)]
pub struct ByteReader {
    piece: [u8; 512],
    start: usize,
    end: usize,
}

impl Model for ByteReader {
    ghost Value = { List ℕ };

    ghost view = { λ r. drop r.start (take r.end r.piece) };

    ghost invariant = { λ r. (r.start ≤ r.end) × (r.end ≤ 512) };
}

impl ByteReader {
    ghost use Rattle.line_reader.specs.Reading.{ahead, ByteFrom, is_over};

    /// Nothing is kept yet.
    pub fn new() -> Self
        ensures { result ≡ [] }
    {
        ByteReader {
            piece: [0; 512],
            start: 0,
            end: 0,
        }
    }

    /// Reads the next byte. The source is asked only where no byte is kept. After `End` or `Failed` no
    /// call may follow.
    pub fn next<S: Source>(&mut self, source: &mut S) -> Next
        requires open { S.ended source.old ≡ false }
        ensures bytes { ByteFrom (ahead self.old (S.left source.old)) (ahead self.new (S.left source.new)) result }
        ensures kept { (b : ℕ) (bs : List ℕ) → self.old ≡ b ∷ bs → (result ≡ Next.Byte b) × (self.new ≡ bs) × (source.new ≡ source.old) }
        ensures cause { HasCause (S.faults source.old) (S.faults source.new) (result ≡ Next.Failed) }
        ensures ended { S.ended source.new ≡ is_over result }
        ensures sure { S.sure source.new ≡ S.sure source.old }
        ensures nothing_kept { result ≡ Next.Failed → self.new ≡ [] }
    {
        if self.start == self.end {
            match source.take(&mut self.piece) {
                Taken::End => return Next::End,
                Taken::Failed => return Next::Failed,
                Taken::Bytes(count) => {
                    self.start = 0;
                    self.end = count;
                }
            }
        }
        let byte = self.piece[self.start];
        self.start += 1;
        Next::Byte(byte)
    }
}
