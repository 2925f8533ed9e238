//! The rounds of a search: what one answers, what is told of it, and the round behind it.
ghost use Rattle.std.specs.Prelude.{◌≡◌, ◌≤◌, IfOk, OnErr, OnOk, length};
ghost use Rattle.deck_check.specs.Readings as says;
ghost use Rattle.deck_lines.specs.Deck.{body_of};
ghost use Rattle.report_text.specs.Rounds.{IsWritable};
ghost use Rattle.deck_tellings.specs.Inner.{GoesOn};
ghost use Rattle.case_study.specs.Keys.{DemandsUnder};
ghost use Rattle.case_study.specs.Listings.{AreTunnels, AreWithin};
ghost use Rattle.deck_tellings.specs.Rounds.{IsFound};
ghost use Rattle.deck_tellings.specs.Searching.{IsRoundAnswer, IsTurn, answer_of};
ghost use Rattle.deck_tellings.specs.Learning.{GainsFew, HasRoomFor, IsLost, Learns};

use crate::answer::{CaseAnswer, CaseUnder, answer_under};
use crate::memory::Memory;
use checked_deck::TypedDeck;
use plan_program::{Outcome, Solved};
use plant_data::{Config, Listed, Tunnel};
use report_text::{
    Found, Refusal, write_barred, write_found, write_inside, write_refusal, write_round,
};
use sim_engine::SimEngine;
use sim_sweep::solve_table;
use std::alloc::Global;
use std::thread::Threads;
use tunnel_search::{are_inside, moved_tunnels};
use wasp_fixed::OutOfMemory;

/// What a round of a case answers.
#[derive(Drop)]
pub(crate) enum RoundAnswer {
    /// The first year over a limit.
    Over(Refusal),
    /// The first year that no plan reaches.
    Barred(u64),
    /// The chosen plan with its cost, in dollars of present worth.
    Planned { configs: Listed<Config>, total: u64 },
}

/// The answer of a solved case.
fn answer_of(outcome: Outcome) -> RoundAnswer
    ensures { result ≡ answer_of outcome }
{
    match outcome {
        Outcome::Plan { configs, total } => RoundAnswer::Planned { configs, total },
        Outcome::Infeasible(year) => RoundAnswer::Barred(year),
    }
}

/// Plans a case under tunnels, or tells its first year over a limit. The rows of its keys are then kept; those that are
/// new are simulated, each once. Nothing is detailed.
pub(crate) fn solve_under<E: SimEngine, R: Threads + Sync>(
    alloc: Global,
    rt: &R,
    asked: CaseUnder,
    memory: &mut Memory,
    engines: &mut [E],
) -> Result<RoundAnswer, OutOfMemory>
    requires some { 1 ≤ length engines.old }
    requires most { length engines.old ≤ 64 }
    requires low { 1 ≤ asked.case }
    requires high { asked.case ≤ says.cases (body_of asked.typed.now) }
    requires tunnels { AreTunnels (body_of asked.typed.now) asked.tunnels.now }
    requires place { HasRoomFor 15000 memory.old }
    ensures answer { IfOk result (λ answer. IsRoundAnswer (body_of asked.entry.typed.now) asked.entry.case
        asked.entry.tunnels.now answer) }
    ensures learns { OnOk result (Learns (AreWithin (body_of asked.entry.typed.now) asked.entry.case
        asked.entry.tunnels.now) (DemandsUnder (body_of asked.entry.typed.now) asked.entry.case
        asked.entry.tunnels.now) (body_of asked.entry.typed.now) memory.old memory.new E.work engines.old engines.new 0) }
    ensures few { OnOk result (GainsFew 15000 memory.old memory.new) }
    ensures err { OnErr result (IsLost (AreWithin (body_of asked.entry.typed.now) asked.entry.case
        asked.entry.tunnels.now) (DemandsUnder (body_of asked.entry.typed.now) asked.entry.case
        asked.entry.tunnels.now) (body_of asked.entry.typed.now) memory.old memory.new E.work engines.old engines.new) }
{
    match answer_under(alloc, rt, asked, memory, engines)? {
        CaseAnswer::Over(refusal) => Ok(RoundAnswer::Over(refusal)),
        CaseAnswer::Table(table) => {
            let (_table, solved) = solve_table(alloc, table)?.into_parts();
            let Solved { outcome, .. } = solved;
            Ok(answer_of(outcome))
        }
    }
}

/// The round of a case that comes next.
#[derive(Drop)]
pub(crate) struct NextRound {
    /// Its number, from 1.
    pub(crate) number: u64,
    /// Its tunnels, one a year.
    pub(crate) tunnels: Vec<Tunnel>,
    /// The last round before it that had a plan.
    pub(crate) last: Option<Found>,
}

/// What comes behind a round.
#[derive(Drop)]
pub(crate) enum Turn {
    Ended,
    Goes(NextRound),
}

/// A case of a deck without a fault, and the greatest counts of its candidates.
#[derive(Drop)]
pub(crate) struct SearchedCase<'a> {
    pub(crate) typed: &'a TypedDeck,
    pub(crate) case: u64,
    pub(crate) greatest: &'a Config,
}

/// Tells of a round with a plan: it is the last where no chosen configuration stands at an edge that may be moved.
fn tell_planned(
    alloc: Global,
    of: &SearchedCase,
    round: NextRound,
    configs: Listed<Config>,
    total: u64,
    text: &mut Vec<u8>,
) -> Result<Turn, OutOfMemory>
    requires number { round.number ≤ 20 }
    requires tunnels { AreTunnels (body_of of.now.typed.now) round.tunnels.items }
    requires greatest { of.now.greatest.now ≡ says.greatest (body_of of.now.typed.now) }
    requires found { IsFound (body_of of.now.typed.now) of.now.case (record {
      tunnels = round.tunnels.items;
      configs = configs;
      total = total;
    }) }
    ensures told { IfOk result (IsTurn (body_of of.now.typed.now) of.now.case round text.old text.new) }
    ensures goes_on { GoesOn text.old text.new }
{
    let NextRound {
        number,
        tunnels,
        ..
    } = round;
    write_round(number, total, text)?;
    let inside = are_inside(of.greatest, &tunnels, configs.as_slice());
    let next = moved_tunnels(alloc, of.greatest, &tunnels, configs.as_slice())?;
    let last = Some(Found {
        tunnels: Listed::new(tunnels),
        configs,
        total,
    });
    if inside {
        write_inside(text)?;
        write_found(of.case, &last, text)?;
        return Ok(Turn::Ended);
    }
    Ok(Turn::Goes(NextRound {
        number: number + 1,
        tunnels: next,
        last,
    }))
}

/// Tells of a round, and moves the tunnels for the next.
pub(crate) fn tell_round(
    alloc: Global,
    of: &SearchedCase,
    round: NextRound,
    answer: RoundAnswer,
    text: &mut Vec<u8>,
) -> Result<Turn, OutOfMemory>
    requires number { round.number ≤ 20 }
    requires tunnels { AreTunnels (body_of of.now.typed.now) round.tunnels.items }
    requires last { IsWritable round.last }
    requires greatest { of.now.greatest.now ≡ says.greatest (body_of of.now.typed.now) }
    requires answer { IsRoundAnswer (body_of of.now.typed.now) of.now.case round.tunnels.items answer }
    ensures told { IfOk result (IsTurn (body_of of.now.typed.now) of.now.case round text.old text.new) }
    ensures goes_on { GoesOn text.old text.new }
{
    match answer {
        RoundAnswer::Planned { configs, total } => {
            tell_planned(alloc, of, round, configs, total, text)
        }
        RoundAnswer::Over(refusal) => {
            write_refusal(&refusal, text)?;
            write_found(of.case, &round.last, text)?;
            Ok(Turn::Ended)
        }
        RoundAnswer::Barred(year) => {
            write_barred(year, text)?;
            write_found(of.case, &round.last, text)?;
            Ok(Turn::Ended)
        }
    }
}
