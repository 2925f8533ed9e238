//! A trial: the deck of three numbers is planned, and the plan summed up.
ghost use Rattle.std.specs.Prelude.{◌≡◌, ◌≢◌, ◌≤◌, [], IfSome, OnOk, false, length};
ghost use Rattle.deck_lines.specs.Words.{number_of};
ghost use Rattle.deck_maker.specs.TrialDeck.{trial};
ghost use Rattle.wasp_io.specs.Causes.{HasCause};
ghost use Rattle.wasp_session.specs.State.{begun};
ghost use Rattle.wasp_session.specs.declared.command.Command.TheVariants as commands;
ghost use Rattle.wasp4.specs.Going.{effort_by};
ghost use Rattle.wasp4.specs.Trial as spec;
ghost use Rattle.wasp4.specs.Trial.{AnswersTrial, IsTrial, IsTrialAnswered};

use crate::putting::{SinkFailed, put_all};
use crate::status::Status;
use deck_maker::{make_deck, trials_have_no_fault, trials_have_one_case};
use hourly_load::number;
use report_text::{write_keys, write_trial};
use sim_engine::SimEngine;
use sim_sweep::Tally;
use std::alloc::Global;
use std::thread::Threads;
use tunnel_configs::listings_fit;
use wasp_fixed::OutOfMemory;
use wasp_io::Sink;
use wasp_session::{Command, Session};

/// What a trial deck is made from.
#[derive(Clone, Copy, Debug, PartialEq, Eq)]
pub struct TrialNumbers {
    /// Of its random numbers.
    pub seed: u64,
    /// 1 to 30.
    pub years: u64,
    /// Thermal candidates, 1 to 6.
    pub candidates: u64,
}

/// The number of a word, where it is in a range.
fn number_within(least: u64, most: u64, word: &str) -> Option<u64>
    ensures value { result ≡ spec.number_within least most (number_of word.now) }
    ensures range { IfSome result (λ n. (least ≤ n) × (n ≤ most)) }
{
    match number(word.as_bytes()) {
        Some(n) if least <= n && n <= most => Some(n),
        _ => None,
    }
}

/// What four words ask for: `trial SEED YEARS CANDIDATES`.
pub(crate) fn trial_behind(
    word: &str,
    seed: &str,
    years: &str,
    candidates: &str,
) -> Option<TrialNumbers>
    ensures value { result ≡ spec.trial_behind word.now seed.now years.now candidates.now }
    ensures range { IfSome result (λ t. IsTrial t) }
{
    if word != "trial" {
        return None;
    }
    let seed = number(seed.as_bytes())?;
    let years = number_within(1, 30, years)?;
    let candidates = number_within(1, 6, candidates)?;
    Some(TrialNumbers {
        seed,
        years,
        candidates,
    })
}

/// Solves the one case of a trial deck, and writes its summary with the number of its keys.
fn answer_trial<E: SimEngine, R: Threads + Sync>(
    rt: &R,
    numbers: TrialNumbers,
    session: &mut Session,
    engines: &mut [E],
    text: &mut Vec<u8>,
) -> Result<(), OutOfMemory>
    requires some { 1 ≤ length engines.old }
    requires most { length engines.old ≤ 64 }
    requires numbers { IsTrial numbers }
    requires session { session.old
        ≡ begun commands.Plan (trial numbers.seed numbers.years numbers.candidates) }
    requires clear { text.old.items ≡ [] }
    ensures { OnOk result (IsTrialAnswered numbers text.new.items (effort_by E.work engines.old 0)
        (effort_by E.work engines.new session.new.memory.tally)) }
{
    // By these laws no year of the case is over a limit.
    trials_have_no_fault();
    trials_have_one_case();
    listings_fit();
    let done = session.solve_case(rt, 1, engines)?;
    let outcome = &done.solved().outcome;
    write_trial(
        numbers.seed,
        numbers.years,
        numbers.candidates,
        outcome,
        text,
    )?;
    write_keys(session.keys(), text)
}

/// Plans the deck of a trial by engines, writes its summary, and counts the rows that they filled.
pub(crate) fn run_trial<E: SimEngine, R: Threads + Sync, K: Sink>(
    rt: &R,
    alloc: Global,
    numbers: TrialNumbers,
    engines: &mut [E],
    sink: &mut K,
    tally: &mut Tally,
) -> Status
    requires some { 1 ≤ length engines.old }
    requires most { length engines.old ≤ 64 }
    requires numbers { IsTrial numbers }
    requires sink { K.failed sink.old ≡ false }
    ensures trial { AnswersTrial numbers (K.written sink.old) (K.written sink.new)
        (effort_by E.work engines.old tally.old) (effort_by E.work engines.new tally.new) result }
    ensures words { result ≢ Status.BadWords }
    ensures read { result ≢ Status.ReadFault }
    ensures write { HasCause (K.faults sink.old) (K.faults sink.new) (result ≡ Status.WriteFault) }
    ensures sure_room { K.sure_room sink.new ≡ K.sure_room sink.old }
{
    let Ok(deck) = make_deck(alloc, numbers.seed, numbers.years, numbers.candidates) else {
        return Status::OutOfMemory;
    };
    let mut session = Session::with_deck(alloc, Command::Plan, deck);
    let mut text = Vec::new(alloc);
    let answered = answer_trial(rt, numbers, &mut session, engines, &mut text);
    tally.add(session.into_tally());
    match answered {
        Ok(()) => match put_all(sink, text.as_slice()) {
            Ok(()) => Status::Done,
            Err(SinkFailed) => Status::WriteFault,
        },
        Err(OutOfMemory) => Status::OutOfMemory,
    }
}
