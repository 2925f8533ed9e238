//! The top call.
ghost use Rattle.std.specs.Prelude.{◌≡◌, ◌≢◌, ◌↔◌, ◌≤◌, ℕ, [], IfOk, IsTrue, None, Ok, OnErr, Some, drop, false, length};
ghost use Rattle.wasp_io.specs.Causes.{HasCause};
ghost use Rattle.wasp_session.specs.Modes.{IsCommand};
ghost use Rattle.wasp4.specs.Going.{HasBegun, effort_by};
ghost use Rattle.wasp4.specs.Hours.{AnswersHours, HasRoomForHours};
ghost use Rattle.wasp4.specs.Out as spec;
ghost use Rattle.wasp4.specs.Progress.{Answers, AnswersBy, HasRoomFor, SaysUsage, StopsWithin};
ghost use Rattle.wasp4.specs.Trial.{AnswersTrialBy, HasRoomForTrial, trial_accepted};
ghost use Rattle.wasp4.specs.declared.asked.Asked.{Asked};

use crate::clerk::Clerk;
use crate::hours::run_hours;
use crate::putting::put_usage;
use crate::status::Status;
use crate::trial::{TrialNumbers, run_trial};
use crate::turn::MOST_LINES;
use crate::words::CommandWords;
use sim_engine::SimEngine;
use sim_sweep::Tally;
use std::alloc::Global;
use std::thread::Threads;
use wasp_fixed::OutOfMemory;
use wasp_io::{Sink, Source};
use wasp_session::Command;

/// Reads a script and writes what it is answered with, line by line.
fn read_script<E: SimEngine, R: Threads + Sync, S: Source, K: Sink>(
    rt: &R,
    clerk: &mut Clerk,
    engines: &mut [E],
    source: &mut S,
    sink: &mut K,
) -> Result<Status, OutOfMemory>
    requires some { 1 ≤ length engines.old }
    requires most { length engines.old ≤ 64 }
    requires reader { clerk.old.reader ≡ [] }
    requires session { HasBegun clerk.old.session }
    requires source { S.ended source.old ≡ false }
    requires sink { K.failed sink.old ≡ false }
    ensures answer { IfOk result (λ status. Answers clerk.old.session.command (S.left source.old) (S.left source.new)
        (K.written sink.old) (K.written sink.new) (effort_by E.work engines.old 0)
        (effort_by E.work engines.new clerk.new.session.memory.tally) status) }
    ensures err { OnErr result (StopsWithin clerk.old.session.command (S.left source.old) (K.written sink.old)
        (K.written sink.new)) }
    ensures read { HasCause (S.faults source.old) (S.faults source.new) (result ≡ Ok Status.ReadFault) }
    ensures write { HasCause (K.faults sink.old) (K.faults sink.new) (result ≡ Ok Status.WriteFault) }
    ensures sure { S.sure source.new ≡ S.sure source.old }
    ensures sure_room { K.sure_room sink.new ≡ K.sure_room sink.old }
{
    for number in 0..MOST_LINES {
        if let Some(status) = clerk.serve(rt, number + 1, engines, source, sink)? {
            return Ok(status);
        }
    }
    clerk.serve_past(source, sink)
}

/// Answers the script that is asked for, by engines, and counts the rows that they filled.
fn answer_script<E: SimEngine, R: Threads + Sync, S: Source, K: Sink>(
    rt: &R,
    alloc: Global,
    command: Command,
    engines: &mut [E],
    source: &mut S,
    sink: &mut K,
    tally: &mut Tally,
) -> Status
    requires some { 1 ≤ length engines.old }
    requires most { length engines.old ≤ 64 }
    requires command { IsCommand command }
    requires source { S.ended source.old ≡ false }
    requires sink { K.failed sink.old ≡ false }
    ensures answer { Answers command (S.left source.old) (S.left source.new) (K.written sink.old) (K.written sink.new)
        (effort_by E.work engines.old tally.old) (effort_by E.work engines.new tally.new) result }
    ensures words { result ≢ Status.BadWords }
    ensures read { HasCause (S.faults source.old) (S.faults source.new) (result ≡ Status.ReadFault) }
    ensures write { HasCause (K.faults sink.old) (K.faults sink.new) (result ≡ Status.WriteFault) }
    ensures sure { S.sure source.new ≡ S.sure source.old }
    ensures sure_room { K.sure_room sink.new ≡ K.sure_room sink.old }
{
    let mut clerk = Clerk::start(alloc, command);
    let read = read_script(rt, &mut clerk, engines, source, sink);
    tally.add(clerk.into_tally());
    match read {
        Ok(status) => status,
        Err(OutOfMemory) => Status::OutOfMemory,
    }
}

/// Answers the script that the words ask for, or says how they are used.
fn run_script<E: SimEngine, R: Threads + Sync, S: Source, K: Sink>(
    rt: &R,
    alloc: Global,
    words: &CommandWords,
    engines: &mut [E],
    source: &mut S,
    sink: &mut K,
    tally: &mut Tally,
) -> Status
    requires source { S.ended source.old ≡ false }
    requires sink { K.failed sink.old ≡ false }
    ensures words { (result ≡ Status.BadWords) ↔ (spec.accepted words.now (length engines.old) ≡ None) }

    // Then nothing is read or simulated, and the usage line is written, or a front of it where the sink failed.
    ensures unread { result ≡ Status.BadWords → source.new ≡ source.old }
    ensures idle { result ≡ Status.BadWords → (engines.new ≡ engines.old) × (tally.new ≡ tally.old) }
    ensures usage { result ≡ Status.BadWords
        → SaysUsage (K.written sink.old) (K.written sink.new) (K.faults sink.old) (K.faults sink.new) }

    // The headline: what is written is the text that the lines define, and each key was simulated once by one of the
    // engines that the words ask for. The others are as before.
    ensures answer { (asked : Asked) → spec.accepted words.now (length engines.old) ≡ Some asked → AnswersBy asked
        (S.left source.old) (S.left source.new) (K.written sink.old) (K.written sink.new)
        E.work engines.old engines.new tally.old tally.new result }
    ensures engines { length engines.new ≡ length engines.old }
    ensures others { (asked : Asked) → spec.accepted words.now (length engines.old) ≡ Some asked
        → drop (spec.used asked) engines.new ≡ drop (spec.used asked) engines.old }

    // A count of faults rises by the fault that is answered alone.
    ensures read { HasCause (S.faults source.old) (S.faults source.new) (result ≡ Status.ReadFault) }
    ensures write { (result ≡ Status.BadWords → ⊥)
        → HasCause (K.faults sink.old) (K.faults sink.new) (result ≡ Status.WriteFault) }
    ensures sure { S.sure source.new ≡ S.sure source.old }
    ensures sure_room { K.sure_room sink.new ≡ K.sure_room sink.old }
    ensures never_read_fault { IsTrue (S.sure source.old) → (result ≡ Status.ReadFault) → ⊥ }
    ensures never_write_fault { (asked : Asked) → spec.accepted words.now (length engines.old) ≡ Some asked
        → HasRoomFor (spec.command_of asked) (S.left source.old) (K.written sink.old) (K.sure_room sink.old)
        → (result ≡ Status.WriteFault) → ⊥ }
{
    match words.asked() {
        Some(asked) if asked.engines() <= engines.len() => answer_script(
            rt,
            alloc,
            asked.command(),
            &mut engines[..asked.engines()],
            source,
            sink,
            tally,
        ),
        _ => {
            put_usage(sink);
            Status::BadWords
        }
    }
}

/// Answers a script or hourly loads, by the words, or says how they are used.
fn run_lines<E: SimEngine, R: Threads + Sync, S: Source, K: Sink>(
    rt: &R,
    alloc: Global,
    words: &CommandWords,
    engines: &mut [E],
    source: &mut S,
    sink: &mut K,
    tally: &mut Tally,
) -> Status
    requires source { S.ended source.old ≡ false }
    requires sink { K.failed sink.old ≡ false }
    ensures words { (result ≡ Status.BadWords) ↔ ((spec.accepted words.now (length engines.old) ≡ None)
        × (spec.hours_points words.now ≡ None)) }

    // Then nothing is read or simulated, and the usage line is written, or a front of it where the sink failed.
    ensures unread { result ≡ Status.BadWords → source.new ≡ source.old }
    ensures idle { result ≡ Status.BadWords → (engines.new ≡ engines.old) × (tally.new ≡ tally.old) }
    ensures usage { result ≡ Status.BadWords
        → SaysUsage (K.written sink.old) (K.written sink.new) (K.faults sink.old) (K.faults sink.new) }

    // The headline: what is written is the text that the lines define, and each key was simulated once by one of the
    // engines that the words ask for. The others are as before.
    ensures answer { (asked : Asked) → spec.accepted words.now (length engines.old) ≡ Some asked → AnswersBy asked
        (S.left source.old) (S.left source.new) (K.written sink.old) (K.written sink.new)
        E.work engines.old engines.new tally.old tally.new result }

    // Of hourly loads: what is written is the text of their shape, or of the first line with a fault. No engine works.
    ensures hours { (points : ℕ) → spec.hours_points words.now ≡ Some points
        → AnswersHours points (S.left source.old) (S.left source.new) (K.written sink.old) (K.written sink.new) result }
    ensures no_engine { (points : ℕ) → spec.hours_points words.now ≡ Some points
        → (engines.new ≡ engines.old) × (tally.new ≡ tally.old) }
    ensures engines { length engines.new ≡ length engines.old }
    ensures others { (asked : Asked) → spec.accepted words.now (length engines.old) ≡ Some asked
        → drop (spec.used asked) engines.new ≡ drop (spec.used asked) engines.old }

    // A count of faults rises by the fault that is answered alone.
    ensures read { HasCause (S.faults source.old) (S.faults source.new) (result ≡ Status.ReadFault) }
    ensures write { (result ≡ Status.BadWords → ⊥)
        → HasCause (K.faults sink.old) (K.faults sink.new) (result ≡ Status.WriteFault) }
    ensures sure { S.sure source.new ≡ S.sure source.old }
    ensures sure_room { K.sure_room sink.new ≡ K.sure_room sink.old }
    ensures never_read_fault { IsTrue (S.sure source.old) → (result ≡ Status.ReadFault) → ⊥ }
    ensures never_write_fault { (asked : Asked) → spec.accepted words.now (length engines.old) ≡ Some asked
        → HasRoomFor (spec.command_of asked) (S.left source.old) (K.written sink.old) (K.sure_room sink.old)
        → (result ≡ Status.WriteFault) → ⊥ }
    ensures never_cut { (points : ℕ) → spec.hours_points words.now ≡ Some points
        → HasRoomForHours points (S.left source.old) (K.written sink.old) (K.sure_room sink.old)
        → (result ≡ Status.WriteFault) → ⊥ }
{
    match words.points() {
        Some(points) => run_hours(alloc, points, source, sink),
        None => run_script(rt, alloc, words, engines, source, sink, tally),
    }
}

/// Plans by a script, checks the certificates in one, makes a shape of hourly loads, or plans a trial: reads the lines
/// from the source and writes the text that they define to the sink.
///
/// For a script the words are `plan`, `plan --workers N` with N from 1 to 64, `check`, `search`, or `best K` with K from 1
/// to 10, and the first N engines work, or the first alone; the text does not depend on N. Neither the source nor the sink has failed or ended
/// before. With accepted words, bytes told and no rise of either count of faults the status is `Done`, `CheckNo` or
/// `Malformed` (or `OutOfMemory`), and the sink has gained exactly the text defined from the bytes that the source
/// had left: for each PLAN line its report or its refusal, the rounds of its search or its best plans, or for each CHECK
/// at its ENDCHECK what is said of its certificate, on the deck as edited so far, and the closing. `CheckNo` comes exactly where the script was read to
/// its END and a check said NO. The engines have then simulated each key that the lines demand once, by one of them,
/// and nothing else, the first has detailed the chosen years, and the tally rose by the number of the keys, which is
/// printed; counts rise run by run, and one that is at the last value of a `u64` stays there. After `ReadFault` the
/// sink has gained the text of the lines taken whole, after `OutOfMemory` a front of what is told of the script's
/// first lines or of the whole text, after `WriteFault` such a front with more to come, at `BadWords`, also where
/// there are too few engines, the usage line or a front of it. A sure source is never the cause of a `ReadFault`, and a sink
/// whose sure room holds all that is to be written never that of a `WriteFault`.
///
/// For hourly loads the words are `hours N`, with N from 2 to 64. No engine works, and none is asked for. The whole
/// text, which is the shape of the loads up to END in N points, or the first line with a fault, is put once reading
/// has ended: after `ReadFault` and `OutOfMemory` nothing of it was written, after `WriteFault` a front with more to
/// come.
///
/// For a trial the words are `trial SEED YEARS CANDIDATES`, with 1 to 30 years and 1 to 6 candidates. The source is not
/// asked. The first engine simulates each key of the one case of the deck once, and nothing is detailed. The summary of
/// the plan with the number of the keys, which the tally gains, is put once it is known: after `OutOfMemory` nothing of
/// it was written, after `WriteFault` a front with more to come.
///
/// `docs/FORMATS.md` has the lines.
pub fn run<E: SimEngine, R: Threads + Sync, S: Source, K: Sink>(
    rt: &R,
    alloc: Global,
    words: &CommandWords,
    engines: &mut [E],
    source: &mut S,
    sink: &mut K,
    tally: &mut Tally,
) -> Status
    requires source { S.ended source.old ≡ false }
    requires sink { K.failed sink.old ≡ false }
    ensures words { (result ≡ Status.BadWords) ↔ ((spec.accepted words.now (length engines.old) ≡ None)
        × (spec.hours_points words.now ≡ None) × (trial_accepted words.now (length engines.old) ≡ None)) }

    // Then nothing is read or simulated, and the usage line is written, or a front of it where the sink failed.
    ensures unread { result ≡ Status.BadWords → source.new ≡ source.old }
    ensures idle { result ≡ Status.BadWords → (engines.new ≡ engines.old) × (tally.new ≡ tally.old) }
    ensures usage { result ≡ Status.BadWords
        → SaysUsage (K.written sink.old) (K.written sink.new) (K.faults sink.old) (K.faults sink.new) }

    // The headline: what is written is the text that the lines define, and each key was simulated once by one of the
    // engines that the words ask for. The others are as before.
    ensures answer { (asked : Asked) → spec.accepted words.now (length engines.old) ≡ Some asked → AnswersBy asked
        (S.left source.old) (S.left source.new) (K.written sink.old) (K.written sink.new)
        E.work engines.old engines.new tally.old tally.new result }

    // Of hourly loads: what is written is the text of their shape, or of the first line with a fault. No engine works.
    ensures hours { (points : ℕ) → spec.hours_points words.now ≡ Some points
        → AnswersHours points (S.left source.old) (S.left source.new) (K.written sink.old) (K.written sink.new) result }
    ensures no_engine { (points : ℕ) → spec.hours_points words.now ≡ Some points
        → (engines.new ≡ engines.old) × (tally.new ≡ tally.old) }

    // Of a trial: what is written is the summary of the plan of its deck, each key of which the first engine simulated
    // once. Nothing is read, and nothing is detailed.
    ensures trial { (t : TrialNumbers) → trial_accepted words.now (length engines.old) ≡ Some t
        → AnswersTrialBy t (K.written sink.old) (K.written sink.new) E.work engines.old engines.new tally.old tally.new
        result }
    ensures untouched { (t : TrialNumbers) → trial_accepted words.now (length engines.old) ≡ Some t
        → (source.new ≡ source.old) × (drop 1 engines.new ≡ drop 1 engines.old) }
    ensures engines { length engines.new ≡ length engines.old }
    ensures others { (asked : Asked) → spec.accepted words.now (length engines.old) ≡ Some asked
        → drop (spec.used asked) engines.new ≡ drop (spec.used asked) engines.old }

    // A count of faults rises by the fault that is answered alone.
    ensures read { HasCause (S.faults source.old) (S.faults source.new) (result ≡ Status.ReadFault) }
    ensures write { (result ≡ Status.BadWords → ⊥)
        → HasCause (K.faults sink.old) (K.faults sink.new) (result ≡ Status.WriteFault) }
    ensures sure { S.sure source.new ≡ S.sure source.old }
    ensures sure_room { K.sure_room sink.new ≡ K.sure_room sink.old }
    ensures never_read_fault { IsTrue (S.sure source.old) → (result ≡ Status.ReadFault) → ⊥ }
    ensures never_write_fault { (asked : Asked) → spec.accepted words.now (length engines.old) ≡ Some asked
        → HasRoomFor (spec.command_of asked) (S.left source.old) (K.written sink.old) (K.sure_room sink.old)
        → (result ≡ Status.WriteFault) → ⊥ }
    ensures never_cut { (points : ℕ) → spec.hours_points words.now ≡ Some points
        → HasRoomForHours points (S.left source.old) (K.written sink.old) (K.sure_room sink.old)
        → (result ≡ Status.WriteFault) → ⊥ }
    ensures never_short { (t : TrialNumbers) → trial_accepted words.now (length engines.old) ≡ Some t
        → HasRoomForTrial t (K.written sink.old) (K.sure_room sink.old) → (result ≡ Status.WriteFault) → ⊥ }
{
    match words.trial() {
        Some(numbers) if 1 <= engines.len() => {
            run_trial(rt, alloc, numbers, &mut engines[..1], sink, tally)
        }
        _ => run_lines(rt, alloc, words, engines, source, sink, tally),
    }
}
