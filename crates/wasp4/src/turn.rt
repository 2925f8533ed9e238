//! One line of the script, from the source to what it is answered with.
ghost use Rattle.std.specs.Prelude.{◌≡◌, ◌≢◌, ◌+◌, ◌<◌, ◌≤◌, ◌++◌, [], List, ℕ, IfOk, OnOk, Err, None, Ok, Some, if◌then◌else◌, false, length, map};
ghost use Rattle.wasp_io.specs.Causes.{HasCause};
ghost use Rattle.line_reader.specs.Reading.{ahead};
ghost use Rattle.deck_lines.specs.Grammar.{IsLine};
ghost use Rattle.deck_lines.specs.LineFault.{Gives, fault};
ghost use Rattle.deck_lines.specs.declared.fault.LineKind.TheVariants as kinds;
ghost use Rattle.deck_lines.specs.declared.line.Line.{Line as Stated};
ghost use Rattle.deck_lines.specs.declared.line.Line.TheVariants as lines;
ghost use Rattle.report_text.specs.Lines.{keys_line};
ghost use Rattle.report_text.specs.Refusals.{malformed_line};
ghost use Rattle.wasp_session.specs.Modes.{IsOfMode, mode_of};
ghost use Rattle.wasp_session.specs.Tasks.{most_plans};
ghost use Rattle.wasp_session.specs.declared.command.Command.{Command};
ghost use Rattle.wasp4.specs.Progress.{AnswersLine, TurnFrom};
ghost use Rattle.wasp4.specs.Script.{stated, within_counts};
ghost use Rattle.wasp4.specs.Going.{Effort, HasRun, HasTaken, effort_by};

use crate::status::{Ending, Turn};
use deck_lines::{Line, LineError, LineFault, LineKind, read_line};
use line_reader::{ByteReader, Found, Next, next_line};
use report_text::{write_keys, write_malformed};
use sim_engine::SimEngine;
use std::alloc::Global;
use std::thread::Threads;
use wasp_fixed::OutOfMemory;
use wasp_io::Source;
use wasp_session::{Session, Step};

/// The most lines of a script.
pub(crate) const MOST_LINES: u64 = 100_000;

/// The most CHECK lines of a script.
const MOST_CHECKS: u64 = 64;

/// Says what is wrong with a line, by its number, and how many keys there were.
pub(crate) fn refuse(
    session: &Session,
    number: u64,
    fault: &LineFault,
    text: &mut Vec<u8>,
) -> Result<(), OutOfMemory>
    ensures { OnOk result (text.new.items
        ≡ (text.old.items ++ malformed_line number fault.now) ++ keys_line (length session.now.memory.shelf.kept)) }
{
    write_malformed(number, fault, text)?;
    write_keys(session.keys(), text)
}

/// Whether the line is one PLAN or CHECK more than a script may have.
fn is_past(session: &Session, line: &Line) -> bool
    ensures { within_counts session.now.command session.now.plans session.now.checks line.now
        ≡ (if result then Err (fault kinds.Many 1) else Ok line.now) }
{
    match line {
        Line::Plan => session.most_plans() <= session.plans(),
        Line::Check(_) => MOST_CHECKS <= session.checks(),
        _ => false,
    }
}

/// The line that bytes are behind those that the session has gone through.
fn state(alloc: Global, session: &Session, bytes: &[u8]) -> Result<Line, LineError>
    ensures exact { Gives (λ l. l) result
        (stated session.now.command session.now.opened session.now.plans session.now.checks bytes.now) }
    ensures in_form { IfOk result (λ l. IsLine l) }
    ensures of_mode { IfOk result (λ l. IsOfMode (mode_of session.now.command session.now.opened) l) }
    ensures plans { result ≡ Ok lines.Plan → session.now.plans < most_plans session.now.command }
    ensures checks { (c : ℕ) → result ≡ Ok (lines.Check c) → session.now.checks < 64 }
{
    let line = read_line(alloc, session.mode(), bytes)?;
    if is_past(session, &line) {
        return Err(LineError::Fault(LineFault {
            kind: LineKind::Many,
            column: 1,
        }));
    }
    Ok(line)
}

/// Answers the bytes of a line in the text.
fn answer<E: SimEngine, R: Threads + Sync>(
    rt: &R,
    alloc: Global,
    session: &mut Session,
    number: u64,
    bytes: &[u8],
    engines: &mut [E],
    text: &mut Vec<u8>,
) -> Result<Turn, OutOfMemory>
    requires last { number ≤ MOST_LINES }
    requires clear { text.old.items ≡ [] }
    requires some { 1 ≤ length engines.old }
    requires most { length engines.old ≤ 64 }
    requires taken { HasTaken session.old }
    ensures taken { OnOk result (HasTaken session.new) }
    ensures answer { (command : Command) (read : List Stated) (said : List ℕ) (start : Effort)
        → number ≡ length read + 1
        → HasRun command read session.old said start (effort_by E.work engines.old session.old.memory.tally)
        → IfOk result (λ turn. AnswersLine command read bytes.now session.new (said ++ text.new.items) start
        (effort_by E.work engines.new session.new.memory.tally) turn) }
{
    // Its reading tells the proof that the session is one.
    let _plans = session.plans();
    match state(alloc, session, bytes) {
        Ok(line) => match session.line(rt, line, engines, text)? {
            Step::Go => Ok(Turn::Goes),
            Step::Ended if session.said_no() => Ok(Turn::Over(Ending::CheckNo)),
            Step::Ended => Ok(Turn::Over(Ending::Done)),
        },
        Err(LineError::OutOfMemory) => Err(OutOfMemory),
        Err(LineError::Fault(fault)) => {
            refuse(session, number, &fault, text)?;
            Ok(Turn::Over(Ending::Malformed))
        }
    }
}

/// Says that line `number` is missing, and how many keys there were.
fn refuse_end(session: &Session, number: u64, text: &mut Vec<u8>) -> Result<(), OutOfMemory>
    ensures { OnOk result (text.new.items
        ≡ (text.old.items ++ malformed_line number (record { kind = LineKind.NoEnd; column = 1 })) ++ keys_line
        (length session.now.memory.shelf.kept)) }
{
    let fault = LineFault {
        kind: LineKind::NoEnd,
        column: 1,
    };
    refuse(session, number, &fault, text)
}

/// Reads the line of a number, and answers it in the text. `None` is a source that failed.
pub(crate) fn turn<E: SimEngine, R: Threads + Sync, S: Source>(
    rt: &R,
    alloc: Global,
    reader: &mut ByteReader,
    source: &mut S,
    session: &mut Session,
    number: u64,
    engines: &mut [E],
    line: &mut Vec<u8>,
    text: &mut Vec<u8>,
) -> Result<Option<Turn>, OutOfMemory>
    requires last { number ≤ MOST_LINES }
    requires source { S.ended source.old ≡ false }
    requires clear { text.old.items ≡ [] }
    requires some { 1 ≤ length engines.old }
    requires most { length engines.old ≤ 64 }
    requires taken { HasTaken session.old }
    ensures taken { OnOk result (HasTaken session.new) }
    ensures turn { (command : Command) (read : List Stated) (said : List ℕ) (start : Effort) → number ≡ length read + 1
        → HasRun command read session.old said start (effort_by E.work engines.old session.old.memory.tally)
        → IfOk result (λ turn. TurnFrom command (ahead reader.old (S.left source.old))
        (ahead reader.new (S.left source.new)) read session.new said text.new.items start
        (effort_by E.work engines.new session.new.memory.tally) turn) }
    ensures source { result ≡ Ok (Some Turn.Goes) → S.ended source.new ≡ false }
    ensures cause { HasCause (S.faults source.old) (S.faults source.new) (result ≡ Ok None) }
    ensures sure { S.sure source.new ≡ S.sure source.old }
    ensures nothing_kept { result ≡ Ok None → reader.new ≡ [] }
{
    match next_line(reader, source, line)? {
        Found::Line => Ok(Some(answer(rt, alloc, session, number, line, engines, text)?)),
        Found::Last => match answer(rt, alloc, session, number, line, engines, text)? {
            Turn::Goes => {
                refuse_end(session, number + 1, text)?;
                Ok(Some(Turn::Over(Ending::Malformed)))
            }
            Turn::Over(ending) => Ok(Some(Turn::Over(ending))),
        },
        Found::Long => {
            let fault = LineFault {
                kind: LineKind::Long,
                column: 4097,
            };
            refuse(session, number, &fault, text)?;
            Ok(Some(Turn::Over(Ending::Malformed)))
        }
        Found::End => {
            refuse_end(session, number, text)?;
            Ok(Some(Turn::Over(Ending::Malformed)))
        }
        Found::Failed => Ok(None),
    }
}

/// What stands behind the last line that a script may have. `None` is a source that failed.
pub(crate) fn past_lines<S: Source>(
    reader: &mut ByteReader,
    source: &mut S,
    session: &Session,
    text: &mut Vec<u8>,
) -> Result<Option<Turn>, OutOfMemory>
    requires source { S.ended source.old ≡ false }
    requires clear { text.old.items ≡ [] }
    ensures turn { (command : Command) (read : List Stated) (said : List ℕ) (start now : Effort)
        → MOST_LINES ≡ length read → HasRun command read session.now said start now
        → IfOk result (λ turn. TurnFrom command (ahead reader.old (S.left source.old))
        (ahead reader.new (S.left source.new)) read session.now said text.new.items start now turn) }
    ensures over { result ≢ Ok (Some Turn.Goes) }
    ensures cause { HasCause (S.faults source.old) (S.faults source.new) (result ≡ Ok None) }
    ensures sure { S.sure source.new ≡ S.sure source.old }
    ensures nothing_kept { result ≡ Ok None → reader.new ≡ [] }
{
    match reader.next(source) {
        Next::Byte(_) => {
            let fault = LineFault {
                kind: LineKind::ManyLines,
                column: 1,
            };
            refuse(session, MOST_LINES + 1, &fault, text)?;
            Ok(Some(Turn::Over(Ending::Malformed)))
        }
        Next::End => {
            refuse_end(session, MOST_LINES + 1, text)?;
            Ok(Some(Turn::Over(Ending::Malformed)))
        }
        Next::Failed => Ok(None),
    }
}
