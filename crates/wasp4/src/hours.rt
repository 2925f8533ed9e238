//! Hourly loads, from their lines to the text of their shape.
ghost use Rattle.std.specs.Prelude.{◌≡◌, ◌≢◌, ◌+◌, ◌<◌, ◌≤◌, [], List, ℕ, Option, IfOk, MatchBool, None, Ok, Some, false, length};
ghost use Rattle.wasp_io.specs.Causes.{HasCause};
ghost use Rattle.line_reader.specs.Reading.{ahead};
ghost use Rattle.deck_lines.specs.LineFault.{Gives};
ghost use Rattle.hourly_load.specs.Hours.{above};
ghost use Rattle.hourly_load.specs.declared.line.LoadLine.TheVariants as lines;
ghost use Rattle.wasp4.specs.Hours.{stated_behind, AnswersHours, AreLoads, HaveShape, HoursFrom, HoursSaid, LineTurn, LoadsFrom, TakesLoads};

use crate::putting::{SinkFailed, put_all};
use crate::status::{Ending, Status};
use crate::turn::MOST_LINES;
use deck_lines::{LineError, LineFault, LineKind};
use hourly_load::{LoadLine, MAX_LOADS, read_load, shape_of, write_hourly};
use line_reader::{ByteReader, Found, Next, next_line};
use report_text::write_malformed;
use std::alloc::Global;
use wasp_fixed::OutOfMemory;
use wasp_io::{Sink, Source};

/// What came of a line.
#[derive(Clone, Copy, Debug, PartialEq, Eq)]
pub(crate) enum LoadTurn {
    /// Others are to come.
    Goes,
    Ended,
    /// The line of a number, from 1, has a fault.
    Malformed(u64, LineFault),
    /// The source failed.
    Failed,
}

/// What the lines of a source are.
#[derive(Debug, Drop)]
pub(crate) enum Hours {
    /// The loads before the END in MW.
    Loads(Vec<u64>),
    /// The first line with a fault, by its number from 1.
    Malformed(u64, LineFault),
    /// The source failed.
    Failed,
}

fn at_first_column(kind: LineKind) -> LineFault
    ensures { result ≡ record { kind = kind; column = 1 } }
{
    LineFault { kind, column: 1 }
}

/// Whether a load is above 0.
fn has_load(loads: &[u64]) -> bool
    ensures { MatchBool result (1 ≤ above loads.now 0) (above loads.now 0 ≡ 0) }
{
    for load in loads {
        if *load > 0 {
            return true;
        }
    }
    false
}

/// What the bytes of a line are behind these loads.
fn stated(loads: &[u64], bytes: &[u8]) -> Result<LoadLine, LineError>
    ensures exact { Gives (λ l. l) result (stated_behind loads.now bytes.now) }
    ensures load { (n : ℕ) → result ≡ Ok (lines.Load n) → (n ≤ 65535) × (length loads.now < 8784) }
    ensures end { result ≡ Ok lines.End → 1 ≤ above loads.now 0 }
{
    let line = read_load(bytes)?;
    match line {
        LoadLine::Blank => Ok(LoadLine::Blank),
        LoadLine::Load(load) => {
            if loads.len() < MAX_LOADS {
                Ok(LoadLine::Load(load))
            } else {
                Err(LineError::Fault(at_first_column(LineKind::Many)))
            }
        }
        LoadLine::End => {
            if has_load(loads) {
                Ok(LoadLine::End)
            } else {
                Err(LineError::Fault(at_first_column(LineKind::Count)))
            }
        }
    }
}

/// Takes in the bytes of a line behind `before` others that gave these loads.
fn take_line(before: u64, bytes: &[u8], loads: &mut Vec<u64>) -> Result<LoadTurn, OutOfMemory>
    requires last { before < MOST_LINES }
    requires loads { AreLoads loads.old.items }
    ensures turn { IfOk result (λ turn. LineTurn before bytes.now loads.old.items loads.new.items turn) }
    ensures loads { IfOk result (λ _. AreLoads loads.new.items) }
    ensures ended { result ≡ Ok LoadTurn.Ended → 1 ≤ above loads.new.items 0 }
{
    match stated(loads, bytes) {
        Ok(line) => match line {
            LoadLine::Blank => Ok(LoadTurn::Goes),
            LoadLine::Load(load) => {
                loads.push(load)?;
                Ok(LoadTurn::Goes)
            }
            LoadLine::End => Ok(LoadTurn::Ended),
        },
        Err(LineError::OutOfMemory) => Err(OutOfMemory),
        Err(LineError::Fault(fault)) => Ok(LoadTurn::Malformed(before + 1, fault)),
    }
}

/// Reads and takes in the line behind `before` others that gave these loads.
fn turn<S: Source>(
    before: u64,
    reader: &mut ByteReader,
    source: &mut S,
    line: &mut Vec<u8>,
    loads: &mut Vec<u64>,
) -> Result<LoadTurn, OutOfMemory>
    requires last { before < MOST_LINES }
    requires source { S.ended source.old ≡ false }
    requires loads { AreLoads loads.old.items }
    ensures turn { IfOk result (λ turn. LoadsFrom before (ahead reader.old (S.left source.old))
        (ahead reader.new (S.left source.new)) loads.old.items loads.new.items turn) }
    ensures loads { IfOk result (λ _. AreLoads loads.new.items) }
    ensures ended { result ≡ Ok LoadTurn.Ended → 1 ≤ above loads.new.items 0 }
    ensures source { result ≡ Ok LoadTurn.Goes → S.ended source.new ≡ false }
    ensures cause { HasCause (S.faults source.old) (S.faults source.new) (result ≡ Ok LoadTurn.Failed) }
    ensures sure { S.sure source.new ≡ S.sure source.old }
    ensures nothing_kept { result ≡ Ok LoadTurn.Failed → reader.new ≡ [] }
{
    match next_line(reader, source, line)? {
        Found::Line => take_line(before, line, loads),
        Found::Last => match take_line(before, line, loads)? {
            LoadTurn::Goes => Ok(LoadTurn::Malformed(before + 2, at_first_column(LineKind::NoEnd))),
            LoadTurn::Ended => Ok(LoadTurn::Ended),
            LoadTurn::Malformed(number, fault) => Ok(LoadTurn::Malformed(number, fault)),
            LoadTurn::Failed => unreachable!(),
        },
        Found::Long => Ok(LoadTurn::Malformed(
            before + 1,
            LineFault {
                kind: LineKind::Long,
                column: 4097,
            },
        )),
        Found::End => Ok(LoadTurn::Malformed(before + 1, at_first_column(LineKind::NoEnd))),
        Found::Failed => Ok(LoadTurn::Failed),
    }
}

/// What stands behind the last line that there may be.
fn past_lines<S: Source>(reader: &mut ByteReader, source: &mut S) -> Hours
    requires source { S.ended source.old ≡ false }
    ensures hours { (before : Option (List ℕ)) (loads : List ℕ)
        → TakesLoads MOST_LINES before (ahead reader.old (S.left source.old)) loads
        → HoursFrom before (S.left source.new) result }
    ensures shape { HaveShape result }
    ensures cause { HasCause (S.faults source.old) (S.faults source.new) (result ≡ Hours.Failed) }
    ensures sure { S.sure source.new ≡ S.sure source.old }
{
    match reader.next(source) {
        Next::Byte(_) => Hours::Malformed(MOST_LINES + 1, at_first_column(LineKind::ManyLines)),
        Next::End => Hours::Malformed(MOST_LINES + 1, at_first_column(LineKind::NoEnd)),
        Next::Failed => Hours::Failed,
    }
}

/// Reads hourly loads up to END, or up to the first line with a fault.
fn read_loads<S: Source>(alloc: Global, source: &mut S) -> Result<Hours, OutOfMemory>
    requires source { S.ended source.old ≡ false }
    ensures hours { IfOk result (λ hours. HoursFrom (S.left source.old) (S.left source.new) hours) }
    ensures shape { IfOk result (λ hours. HaveShape hours) }
    ensures cause { HasCause (S.faults source.old) (S.faults source.new) (result ≡ Ok Hours.Failed) }
    ensures sure { S.sure source.new ≡ S.sure source.old }
{
    let mut reader = ByteReader::new();
    let mut line = Vec::new(alloc);
    let mut loads = Vec::new(alloc);
    for before in 0..MOST_LINES {
        match turn(before, &mut reader, source, &mut line, &mut loads)? {
            LoadTurn::Goes => {}
            LoadTurn::Ended => return Ok(Hours::Loads(loads)),
            LoadTurn::Malformed(number, fault) => return Ok(Hours::Malformed(number, fault)),
            LoadTurn::Failed => return Ok(Hours::Failed),
        }
    }
    Ok(past_lines(&mut reader, source))
}

/// The text that the lines of a source are answered with, and how they end; `None` is a source that failed.
fn answer_loads<S: Source>(
    alloc: Global,
    points: u64,
    source: &mut S,
    text: &mut Vec<u8>,
) -> Result<Option<Ending>, OutOfMemory>
    requires least { 2 ≤ points }
    requires most { points ≤ 64 }
    requires source { S.ended source.old ≡ false }
    requires clear { text.old.items ≡ [] }
    ensures said { IfOk result (λ ending. HoursSaid points (S.left source.old) (S.left source.new) text.new.items
        ending) }
    ensures cause { HasCause (S.faults source.old) (S.faults source.new) (result ≡ Ok None) }
    ensures sure { S.sure source.new ≡ S.sure source.old }
{
    match read_loads(alloc, source)? {
        Hours::Loads(loads) => {
            let hourly = shape_of(alloc, loads.as_slice(), points)?;
            write_hourly(&hourly, text)?;
            Ok(Some(Ending::Done))
        }
        Hours::Malformed(number, fault) => {
            write_malformed(number, &fault, text)?;
            Ok(Some(Ending::Malformed))
        }
        Hours::Failed => Ok(None),
    }
}

/// Reads hourly loads up to END, and then writes their shape in so many points, or the first line with a fault.
pub(crate) fn run_hours<S: Source, K: Sink>(
    alloc: Global,
    points: u64,
    source: &mut S,
    sink: &mut K,
) -> Status
    requires least { 2 ≤ points }
    requires most { points ≤ 64 }
    requires source { S.ended source.old ≡ false }
    requires sink { K.failed sink.old ≡ false }
    ensures hours { AnswersHours points (S.left source.old) (S.left source.new) (K.written sink.old)
        (K.written sink.new) result }
    ensures read { HasCause (S.faults source.old) (S.faults source.new) (result ≡ Status.ReadFault) }
    ensures write { HasCause (K.faults sink.old) (K.faults sink.new) (result ≡ Status.WriteFault) }
    ensures sure { S.sure source.new ≡ S.sure source.old }
    ensures sure_room { K.sure_room sink.new ≡ K.sure_room sink.old }
{
    let mut text = Vec::new(alloc);
    match answer_loads(alloc, points, source, &mut text) {
        Err(OutOfMemory) => Status::OutOfMemory,
        Ok(None) => Status::ReadFault,
        Ok(Some(ending)) => match put_all(sink, text.as_slice()) {
            Ok(()) => ending.status(),
            Err(SinkFailed) => Status::WriteFault,
        },
    }
}
