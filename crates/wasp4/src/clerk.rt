//! Line by line: each is read, answered, and its text put before anything behind it is asked for.
ghost use Rattle.std.specs.Prelude.{◌≡◌, ◌+◌, ◌≤◌, [], List, ℕ, IfOk, IfSome, None, OnErr, OnOk, Ok, Some, false, length};
ghost use Rattle.wasp_io.specs.Causes.{HasCause};
ghost use Rattle.line_reader.specs.Reading.{ahead};
ghost use Rattle.deck_lines.specs.declared.line.Line.{Line as Stated};
ghost use Rattle.wasp_session.specs.Modes.{IsCommand};
ghost use Rattle.wasp_session.specs.State.{begun};
ghost use Rattle.wasp_session.specs.declared.command.Command.{Command as Asked};
ghost use Rattle.wasp4.specs.Progress.{PutAs, Serves};
ghost use Rattle.wasp4.specs.Going.{Effort, HasRun, HasTaken, effort_by};

use crate::putting::put_all;
use crate::status::{Status, Turn};
use crate::turn::{MOST_LINES, past_lines, turn};
use line_reader::ByteReader;
use sim_engine::SimEngine;
use sim_sweep::Tally;
use std::alloc::Global;
use std::thread::Threads;
use wasp_fixed::OutOfMemory;
use wasp_io::{Sink, Source};
use wasp_session::{Command, Session};

/// Puts the text of a turn, if the source did not fail, and says how the run ends, if it does.
fn put_turn<K: Sink>(sink: &mut K, text: &[u8], turn: Option<Turn>) -> Option<Status>
    requires open { K.failed sink.old ≡ false }
    ensures put { PutAs (K.written sink.old) (K.written sink.new) text.now turn result }
    ensures open { result ≡ None → K.failed sink.new ≡ false }
    ensures cause { HasCause (K.faults sink.old) (K.faults sink.new) (result ≡ Some Status.WriteFault) }
    ensures sure_room { K.sure_room sink.new ≡ K.sure_room sink.old }
{
    let Some(turn) = turn else {
        return Some(Status::ReadFault);
    };
    let Ok(()) = put_all(sink, text) else {
        return Some(Status::WriteFault);
    };
    match turn {
        Turn::Goes => None,
        Turn::Over(ending) => Some(ending.status()),
    }
}

/// What a script is read and answered with: the bytes that are kept, the session, the line at hand, and its text.
#[derive(Drop)]
pub(crate) struct Clerk {
    alloc: Global,
    reader: ByteReader,
    session: Session,
    line: Vec<u8>,
    text: Vec<u8>,
}

impl Clerk {
    /// Before the first line. It takes no memory.
    pub(crate) fn start(alloc: Global, command: Command) -> Self
        requires { IsCommand command }
        ensures reader { result.reader ≡ [] }
        ensures session { result.session ≡ begun command [] }
    {
        Clerk {
            alloc,
            reader: ByteReader::new(),
            session: Session::start(alloc, command),
            line: Vec::new(alloc),
            text: Vec::new(alloc),
        }
    }

    /// Takes the line of a number and puts its text. A status is how the run ends. The source is asked for what the
    /// line needs and for nothing behind it.
    pub(crate) fn serve<E: SimEngine, R: Threads + Sync, S: Source, K: Sink>(
        &mut self,
        rt: &R,
        number: u64,
        engines: &mut [E],
        source: &mut S,
        sink: &mut K,
    ) -> Result<Option<Status>, OutOfMemory>
        requires last { number ≤ MOST_LINES }
        requires some { 1 ≤ length engines.old }
        requires most { length engines.old ≤ 64 }
        requires taken { HasTaken self.old.session }
        requires source { S.ended source.old ≡ false }
        requires sink { K.failed sink.old ≡ false }
        ensures taken { OnOk result (HasTaken self.new.session) }
        ensures serves { (command : Asked) (read : List Stated) (said : List ℕ) (start : Effort)
            → number ≡ length read + 1
            → HasRun command read self.old.session said start
            (effort_by E.work engines.old self.old.session.memory.tally)
            → IfOk result (λ served. Serves command (ahead self.old.reader (S.left source.old))
            (ahead self.new.reader (S.left source.new)) (K.written sink.old) (K.written sink.new) read
            self.new.session said start (effort_by E.work engines.new self.new.session.memory.tally) served) }
        ensures nothing_kept { result ≡ Ok (Some Status.ReadFault) → self.new.reader ≡ [] }
        ensures source { result ≡ Ok None → S.ended source.new ≡ false }
        ensures sink { result ≡ Ok None → K.failed sink.new ≡ false }
        ensures read { HasCause (S.faults source.old) (S.faults source.new) (result ≡ Ok (Some Status.ReadFault)) }
        ensures write { HasCause (K.faults sink.old) (K.faults sink.new) (result ≡ Ok (Some Status.WriteFault)) }
        ensures sure { S.sure source.new ≡ S.sure source.old }
        ensures sure_room { K.sure_room sink.new ≡ K.sure_room sink.old }
        ensures err { OnErr result (sink.new ≡ sink.old) }
    {
        self.text.clear();
        let turn = turn(
            rt,
            self.alloc,
            &mut self.reader,
            source,
            &mut self.session,
            number,
            engines,
            &mut self.line,
            &mut self.text,
        )?;
        Ok(put_turn(sink, &self.text, turn))
    }

    /// How many rows sweeps have filled.
    pub(crate) fn into_tally(self) -> Tally
        ensures { result ≡ self.session.memory.tally }
    {
        let Clerk { session, .. } = self;
        session.into_tally()
    }

    /// What stands behind the last line that a script may have.
    pub(crate) fn serve_past<S: Source, K: Sink>(
        &mut self,
        source: &mut S,
        sink: &mut K,
    ) -> Result<Status, OutOfMemory>
        requires source { S.ended source.old ≡ false }
        requires sink { K.failed sink.old ≡ false }
        ensures serves { (command : Asked) (read : List Stated) (said : List ℕ) (start now : Effort)
            → MOST_LINES ≡ length read
            → HasRun command read self.old.session said start now
            → IfOk result (λ status. Serves command (ahead self.old.reader (S.left source.old))
            (ahead self.new.reader (S.left source.new)) (K.written sink.old) (K.written sink.new) read
            self.new.session said start now (Some status)) }
        ensures tally { self.new.session.memory.tally ≡ self.old.session.memory.tally }
        ensures nothing_kept { result ≡ Ok Status.ReadFault → self.new.reader ≡ [] }
        ensures read { HasCause (S.faults source.old) (S.faults source.new) (result ≡ Ok Status.ReadFault) }
        ensures write { HasCause (K.faults sink.old) (K.faults sink.new) (result ≡ Ok Status.WriteFault) }
        ensures sure { S.sure source.new ≡ S.sure source.old }
        ensures sure_room { K.sure_room sink.new ≡ K.sure_room sink.old }
        ensures err { OnErr result (sink.new ≡ sink.old) }
    {
        self.text.clear();
        let turn = past_lines(&mut self.reader, source, &self.session, &mut self.text)?;
        match put_turn(sink, &self.text, turn) {
            Some(status) => Ok(status),
            None => unreachable!(),
        }
    }
}
