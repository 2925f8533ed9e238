//! The edge to standard input and output. What a real reader has left and a real writer holds is not told.
use crate::{Given, Sink, Source, Taken};
use std::io::{Read, Write};

/// A reader as a source. Each error is a fault, and a read of 0 bytes is the end.
#[derive(Drop)]
pub struct StdSource<R> {
    reader: R,
    faults: u64,
    over: bool,
}

impl<R: Read> StdSource<R> {
    ghost use Rattle.std.specs.Prelude.{◌≡◌, false};

    pub fn new(reader: R) -> Self
        ensures faults { ⟦<StdSource<R> as Source>⟧.faults result ≡ 0 }
        ensures open { ⟦<StdSource<R> as Source>⟧.ended result ≡ false }
    {
        StdSource {
            reader,
            faults: 0,
            over: false,
        }
    }
}

impl<R: Read> Source for StdSource<R> {
    ghost use Rattle.std.specs.Prelude.{None, false};
    ghost use Rattle.wasp_io.specs.Refuted.{not_sure};

    ghost left = { λ _. None };

    ghost faults = { λ s. s.faults };

    ghost ended = { λ s. s.over };

    ghost sure = { λ _. false };

    ghost never_fails = { λ s h. not_sure h };

    fn take(&mut self, room: &mut [u8]) -> Taken {
        match self.reader.read(room) {
            Ok(0) => {
                self.over = true;
                Taken::End
            }
            Ok(count) => Taken::Bytes(count),
            Err(_) => {
                self.faults = self.faults.saturating_add(1);
                self.over = true;
                Taken::Failed
            }
        }
    }
}

/// A writer as a sink. Each error is a fault, and so is a write that takes nothing of a piece.
#[derive(Drop)]
pub struct StdSink<W> {
    writer: W,
    faults: u64,
    broken: bool,
}

impl<W: Write> StdSink<W> {
    ghost use Rattle.std.specs.Prelude.{◌≡◌, false};

    pub fn new(writer: W) -> Self
        ensures faults { ⟦<StdSink<W> as Sink>⟧.faults result ≡ 0 }
        ensures open { ⟦<StdSink<W> as Sink>⟧.failed result ≡ false }
    {
        StdSink {
            writer,
            faults: 0,
            broken: false,
        }
    }
}

impl<W: Write> Sink for StdSink<W> {
    ghost use Rattle.std.specs.Prelude.{None};
    ghost use Rattle.wasp_io.specs.Refuted.{no_room};

    ghost written = { λ _. None };

    ghost faults = { λ s. s.faults };

    ghost failed = { λ s. s.broken };

    ghost sure_room = { λ _. None };

    ghost within_room = { λ s r h. no_room h };

    fn put(&mut self, piece: &[u8]) -> Given {
        match self.writer.write(piece) {
            Ok(0) | Err(_) => {
                self.faults = self.faults.saturating_add(1);
                self.broken = true;
                Given::Failed
            }
            Ok(count) => Given::Wrote(count),
        }
    }
}
