//! The session of a run.
ghost use Rattle.std.specs.Prelude.{◌≡◌, ◌+◌, ◌<◌, ◌≤◌, ◌↔◌, [], ◌++◌, IfOk, IsErr, IsTrue, OnErr, OnOk, length};
ghost use Rattle.deck_lines.specs.Deck.{body_of, put, without};
ghost use Rattle.deck_lines.specs.Grammar.{IsCertLine, IsLine};
ghost use Rattle.deck_lines.specs.Statements.{IsStatement};
ghost use Rattle.deck_lines.specs.declared.line.Line.TheVariants as lines;
ghost use Rattle.plan_program.specs.Chosen.{IsSolution};
ghost use Rattle.report_text.specs.Lines.{keys_line};
ghost use Rattle.case_study.specs.Case.{IsTableOf};
ghost use Rattle.deck_tellings.specs.Checks.{nos_of, with_line};
ghost use Rattle.deck_tellings.specs.Inner.{GoesOn};
ghost use Rattle.wasp_session.specs.Inner.{IsLostOn, TellsDeck, TellsPlan};
ghost use Rattle.case_study.specs.Listings.{deck_tunnels};
ghost use Rattle.wasp_session.specs.Modes.{HasPlans, IsCommand, IsOfMode, mode_of};
ghost use Rattle.wasp_session.specs.Solving.{IsCaseWanting};
ghost use Rattle.deck_tellings.specs.Solving.{IsCaseWithin, IsSolvable, LearnsCase};
ghost use Rattle.wasp_session.specs.State.{IsState, begun, behind};
ghost use Rattle.wasp_session.specs.Steps.{DoesLine, IsPlaced, IsWantingAt};
ghost use Rattle.deck_tellings.specs.Learning.{GainsFew, HasPlaceFor};
ghost use Rattle.wasp_session.specs.Tasks.{head_of, most_keys, most_plans};
ghost use Rattle.wasp_session.specs.declared.command.Command.TheVariants as commands;
ghost use Rattle.wasp_session.specs.declared.command.Step.TheVariants as steps;

use crate::command::{Command, Step};
use deck_lines::{CertLine, Deck, Head, Line, Mode, Statement};
use deck_tellings::{
    BestOf, Memory, OpenCheck, judge_deck, plan_deck, rank_deck, search_deck, solve_deck,
};
use plan_certificate::Verdict;
use report_text::{
    Judged, write_best_heading, write_heading, write_keys, write_search_heading, write_verdict,
};
use sim_engine::SimEngine;
use sim_sweep::{CaseDone, Tally};
use std::alloc::Global;
use std::marker::Model;
use std::thread::Threads;
use wasp_fixed::OutOfMemory;

/// How many times a check says NO: once, or not at all, as a refused one.
fn count_no(judged: &Judged) -> u64
    ensures count { result ≡ nos_of judged.now }
    ensures most { result ≤ 1 }
{
    if matches!(judged, Judged::Form(_) | Judged::Said(Verdict::No(_))) {
        1
    } else {
        0
    }
}

/// The deck as edited so far, the memory of systems and rows, the numbers of PLAN and CHECK lines, the open CHECK, how
/// many checks said NO, and whether memory was wanting.
#[derive(Drop)]
pub struct Session {
    alloc: Global,
    command: Command,
    deck: Deck,
    memory: Memory,
    plans: u64,
    checks: u64,
    opened: Option<OpenCheck>,
    nos: u64,
    refused: bool,
}

impl Model for Session {
    ghost use Rattle.wasp_session.specs.State.{IsState, State};

    ghost Value = { State };

    ghost view = { λ s. record { command = s.command; deck = s.deck; memory = s.memory; plans = s.plans; checks = s.checks; opened = s.opened; nos = s.nos; refused = s.refused } };

    ghost invariant = { λ s. IsState (record { command = s.command; deck = s.deck; memory = s.memory; plans = s.plans; checks = s.checks; opened = s.opened; nos = s.nos; refused = s.refused }) };
}

impl Session {
    /// A session of no line. It takes no memory.
    pub fn start(alloc: Global, command: Command) -> Session
        requires { IsCommand command }
        ensures { result ≡ begun command [] }
    {
        Session::with_deck(alloc, command, Deck::new(alloc))
    }

    /// The same with a deck.
    pub fn with_deck(alloc: Global, command: Command, deck: Deck) -> Session
        requires { IsCommand command }
        ensures { result ≡ begun command deck }
    {
        Session {
            alloc,
            command,
            deck,
            memory: Memory::empty(alloc),
            plans: 0,
            checks: 0,
            opened: None,
            nos: 0,
            refused: false,
        }
    }

    /// How the next line is read: as one of a certificate from a CHECK line to its ENDCHECK.
    pub fn mode(&self) -> Mode
        ensures { result ≡ mode_of self.now.command self.now.opened }
    {
        match self.command {
            Command::Plan | Command::Search | Command::Best(_) => Mode::Plan,
            Command::Check => {
                if self.opened.is_some() {
                    Mode::Certificate
                } else {
                    Mode::Check
                }
            }
        }
    }

    /// How many rows are kept: those of the distinct keys that the lines demanded.
    pub fn keys(&self) -> u64
        ensures value { result ≡ length self.now.memory.shelf.kept }
        ensures valid { IsState self.now }
    {
        self.memory.shelf().len()
    }

    /// How many rows sweeps have filled for it.
    pub fn into_tally(self) -> Tally
        ensures { result ≡ self.memory.tally }
    {
        let Session { memory, .. } = self;
        memory.into_tally()
    }

    /// Whether a check said NO.
    pub fn said_no(&self) -> bool
        ensures { IsTrue result ↔ (1 ≤ self.now.nos) }
    {
        self.nos > 0
    }

    /// How many PLAN lines there were.
    pub fn plans(&self) -> u64
        ensures value { result ≡ self.now.plans }
        ensures most { result ≤ 64 }
        ensures valid { IsState self.now }
    {
        self.plans
    }

    /// The most PLAN lines that a script of its command may have.
    pub fn most_plans(&self) -> u64
        ensures { result ≡ most_plans self.now.command }
    {
        match self.command {
            Command::Search => 3,
            Command::Plan | Command::Check | Command::Best(_) => 64,
        }
    }

    /// How many CHECK lines there were.
    pub fn checks(&self) -> u64
        ensures value { result ≡ self.now.checks }
        ensures most { result ≤ 64 }
        ensures valid { IsState self.now }
    {
        self.checks
    }

    /// Writes the heading of the PLAN at hand.
    fn head(&self, text: &mut Vec<u8>) -> Result<(), OutOfMemory>
        ensures appended { OnOk result (text.new.items ≡ text.old.items ++ head_of self.now.command self.now.plans) }
        ensures kept { OnErr result (text.new.items ≡ text.old.items) }
    {
        match self.command {
            Command::Plan => write_heading(self.plans, text),
            Command::Check => Ok(()),
            Command::Search => write_search_heading(self.plans, text),
            Command::Best(_) => write_best_heading(self.plans, text),
        }
    }

    /// Tells what the command tells of the deck.
    fn tell_deck<E: SimEngine, R: Threads + Sync>(
        &mut self,
        rt: &R,
        engines: &mut [E],
        text: &mut Vec<u8>,
    ) -> Result<(), OutOfMemory>
        requires some { 1 ≤ length engines.old }
        requires most { length engines.old ≤ 64 }
        requires plans { HasPlans self.old.command }
        requires place { HasPlaceFor (most_keys self.old.command) self.old.memory }
        ensures told { OnOk result (TellsDeck self.old.command self.old.deck self.old.memory self.new.memory
            E.work engines.old engines.new text.old text.new) }
        ensures few { OnOk result (GainsFew (most_keys self.old.command) self.old.memory self.new.memory) }
        ensures err { OnErr result (IsLostOn self.old.command self.old.deck self.old.memory self.new.memory
            E.work engines.old engines.new) }
        ensures goes_on { GoesOn text.old text.new }
        ensures state { self.new ≡ record self.old { memory = self.new.memory } }
    {
        // Each reading of the shelf tells the proof that it is one.
        match self.command {
            Command::Plan => {
                let told = plan_deck(self.alloc, rt, &self.deck, &mut self.memory, engines, text);
                let _shelf = self.memory.shelf();
                told
            }
            Command::Check => Ok(()),
            Command::Search => {
                let told = search_deck(self.alloc, rt, &self.deck, &mut self.memory, engines, text);
                let _shelf = self.memory.shelf();
                told
            }
            Command::Best(plans) => {
                let asked = BestOf {
                    deck: &self.deck,
                    plans,
                };
                let told = rank_deck(self.alloc, rt, asked, &mut self.memory, engines, text);
                let _shelf = self.memory.shelf();
                told
            }
        }
    }

    /// Tells what a PLAN line tells, behind its heading.
    fn tell_plan<E: SimEngine, R: Threads + Sync>(
        &mut self,
        rt: &R,
        engines: &mut [E],
        text: &mut Vec<u8>,
    ) -> Result<(), OutOfMemory>
        requires some { 1 ≤ length engines.old }
        requires most { length engines.old ≤ 64 }
        requires plans { HasPlans self.old.command }
        requires place { HasPlaceFor (most_keys self.old.command) self.old.memory }
        ensures told { OnOk result (TellsPlan self.old.command self.old.plans self.old.deck self.old.memory
            self.new.memory E.work engines.old engines.new text.old text.new) }
        ensures few { OnOk result (GainsFew (most_keys self.old.command) self.old.memory self.new.memory) }
        ensures err { OnErr result (IsLostOn self.old.command self.old.deck self.old.memory self.new.memory
            E.work engines.old engines.new) }
        ensures goes_on { GoesOn text.old text.new }
        ensures state { self.new ≡ record self.old { memory = self.new.memory } }
    {
        self.head(text)?;
        self.tell_deck(rt, engines, text)
    }

    /// Plans the deck, which counts as a PLAN line. After want of memory the text is cut back to what it was.
    pub fn plan<E: SimEngine, R: Threads + Sync>(
        &mut self,
        rt: &R,
        engines: &mut [E],
        text: &mut Vec<u8>,
    ) -> Result<(), OutOfMemory>
        requires some { 1 ≤ length engines.old }
        requires most { length engines.old ≤ 64 }
        requires command { HasPlans self.old.command }
        requires place { IsPlaced lines.Plan self.old }
        ensures does { OnOk result (DoesLine lines.Plan self.old self.new E.work engines.old engines.new text.old
            text.new) }
        ensures few { OnOk result (GainsFew (most_keys self.old.command) self.old.memory self.new.memory) }
        ensures err_text { OnErr result (text.new.items ≡ text.old.items) }
        ensures err { OnErr result (IsWantingAt lines.Plan self.old self.new E.work engines.old engines.new) }
        ensures later { IsTrue self.old.refused → IsErr result }
    {
        if self.refused {
            return Err(OutOfMemory);
        }
        self.refused = true;
        self.plans += 1;
        let length = text.len();
        match self.tell_plan(rt, engines, text) {
            Ok(()) => {
                self.refused = false;
                Ok(())
            }
            Err(OutOfMemory) => {
                text.truncate(length);
                Err(OutOfMemory)
            }
        }
    }

    /// Changes the deck, behind the flag.
    fn edit(&mut self, statement: Statement) -> Result<(), OutOfMemory>
        requires { IsStatement statement }
        ensures deck { OnOk result (self.new ≡ record self.old { deck = put self.old.deck statement }) }
        ensures err_deck { OnErr result (self.new.deck ≡ self.old.deck) }
        ensures memory { self.new.memory ≡ self.old.memory }
        ensures command { self.new.command ≡ self.old.command }
        ensures err { IsTrue self.new.refused ↔ IsErr result }
        ensures later { IsTrue self.old.refused → IsErr result }
    {
        if self.refused {
            return Err(OutOfMemory);
        }
        self.refused = true;
        self.deck.set(statement)?;
        self.refused = false;
        Ok(())
    }

    /// Takes the statement with a head away, which needs no memory.
    fn leave_out(&mut self, head: &Head)
        ensures { self.new ≡ record self.old { deck = without self.old.deck head.now } }
    {
        self.deck.drop_head(head);
    }

    /// Opens a CHECK of a case, which takes no memory.
    fn begin(&mut self, case: u64)
        requires command { self.old.command ≡ commands.Check }
        requires first { 1 ≤ case }
        requires last { case ≤ 8 }
        requires checks { self.old.checks < 64 }
        ensures { self.new ≡ behind self.old (lines.Check case) }
    {
        self.checks += 1;
        self.opened = Some(OpenCheck::new(self.alloc, case));
    }

    /// Keeps a line of the open certificate, behind the flag.
    fn keep(&mut self, line: CertLine) -> Result<(), OutOfMemory>
        requires { IsCertLine line }
        ensures state { OnOk result (self.new ≡ record self.old { opened = with_line self.old.opened line }) }
        ensures memory { self.new.memory ≡ self.old.memory }
        ensures deck { self.new.deck ≡ self.old.deck }
        ensures command { self.new.command ≡ self.old.command }
        ensures err { IsTrue self.new.refused ↔ IsErr result }
        ensures later { IsTrue self.old.refused → IsErr result }
    {
        if self.refused {
            return Err(OutOfMemory);
        }
        self.refused = true;
        if let Some(opened) = &mut self.opened {
            opened.push(line)?;
        }
        self.refused = false;
        Ok(())
    }

    /// Says of the open certificate what its ENDCHECK does.
    fn check<E: SimEngine, R: Threads + Sync>(
        &mut self,
        rt: &R,
        engines: &mut [E],
        text: &mut Vec<u8>,
    ) -> Result<(), OutOfMemory>
        requires some { 1 ≤ length engines.old }
        requires most { length engines.old ≤ 64 }
        requires command { self.old.command ≡ commands.Check }
        requires place { IsPlaced lines.EndCheck self.old }
        ensures does { OnOk result (DoesLine lines.EndCheck self.old self.new E.work engines.old engines.new text.old
            text.new) }
        ensures few { OnOk result (GainsFew (most_keys self.old.command) self.old.memory self.new.memory) }
        ensures err_text { OnErr result (text.new.items ≡ text.old.items) }
        ensures err { OnErr result (IsWantingAt lines.EndCheck self.old self.new E.work engines.old engines.new) }
        ensures later { IsTrue self.old.refused → IsErr result }
    {
        if self.refused {
            return Err(OutOfMemory);
        }
        let Some(opened) = self.opened.take() else {
            return Ok(());
        };
        self.refused = true;
        let answer = judge_deck(
            self.alloc,
            rt,
            &self.deck,
            &opened,
            &mut self.memory,
            engines,
        );
        // Its reading tells the proof that the shelf is one.
        let _shelf = self.memory.shelf();
        let judged = answer?;
        write_verdict(self.checks, opened.case(), &judged, text)?;
        self.nos += count_no(&judged);
        self.refused = false;
        Ok(())
    }

    /// Writes the number of the keys, behind the flag.
    fn end(&mut self, text: &mut Vec<u8>) -> Result<(), OutOfMemory>
        ensures text { OnOk result (text.new.items ≡ text.old.items ++ keys_line (length self.old.memory.shelf.kept)) }
        ensures same { OnOk result (self.new ≡ self.old) }
        ensures memory { self.new.memory ≡ self.old.memory }
        ensures deck { self.new.deck ≡ self.old.deck }
        ensures command { self.new.command ≡ self.old.command }
        ensures err_text { OnErr result (text.new.items ≡ text.old.items) }
        ensures err { IsTrue self.new.refused ↔ IsErr result }
        ensures later { IsTrue self.old.refused → IsErr result }
    {
        if self.refused {
            return Err(OutOfMemory);
        }
        self.refused = true;
        write_keys(self.memory.shelf().len(), text)?;
        self.refused = false;
        Ok(())
    }

    /// Does what a line says: its text comes behind the others, and the state goes on. `Ended` comes exactly at END.
    /// The engines simulate the keys that are new together, and the first details. After `OutOfMemory` the text is as
    /// before, and the session answers `OutOfMemory` to every later call that can.
    pub fn line<E: SimEngine, R: Threads + Sync>(
        &mut self,
        rt: &R,
        line: Line,
        engines: &mut [E],
        text: &mut Vec<u8>,
    ) -> Result<Step, OutOfMemory>
        requires some { 1 ≤ length engines.old }
        requires most { length engines.old ≤ 64 }
        requires in_form { IsLine line }
        requires mode { IsOfMode (mode_of self.old.command self.old.opened) line }
        requires place { IsPlaced line self.old }
        ensures does { OnOk result (DoesLine line self.old self.new E.work engines.old engines.new text.old text.new) }
        ensures few { OnOk result (GainsFew (most_keys self.old.command) self.old.memory self.new.memory) }
        ensures ended { IfOk result (λ step. (step ≡ steps.Ended) ↔ (line ≡ lines.End)) }
        ensures err_text { OnErr result (text.new.items ≡ text.old.items) }
        ensures err { OnErr result (IsWantingAt line self.old self.new E.work engines.old engines.new) }
        ensures later { IsTrue self.old.refused → IsErr result }
    {
        if self.refused {
            return Err(OutOfMemory);
        }
        match line {
            Line::Set(statement) => {
                self.edit(statement)?;
                Ok(Step::Go)
            }
            Line::Drop(head) => {
                self.leave_out(&head);
                Ok(Step::Go)
            }
            Line::Plan => {
                self.plan(rt, engines, text)?;
                Ok(Step::Go)
            }
            Line::End => {
                self.end(text)?;
                Ok(Step::Ended)
            }
            Line::Check(case) => {
                self.begin(case);
                Ok(Step::Go)
            }
            Line::Cert(line) => {
                self.keep(line)?;
                Ok(Step::Go)
            }
            Line::EndCheck => {
                self.check(rt, engines, text)?;
                Ok(Step::Go)
            }
            Line::Blank | Line::Skip => Ok(Step::Go),
        }
    }

    /// Solves a case of the deck, of which no year is over a limit, as a PLAN would: its table and the solution. The
    /// rows of the case's keys are then kept; those that are new are simulated by the engines, each once. Nothing is
    /// detailed, and nothing else of the session changes.
    pub fn solve_case<E: SimEngine, R: Threads + Sync>(
        &mut self,
        rt: &R,
        case: u64,
        engines: &mut [E],
    ) -> Result<CaseDone, OutOfMemory>
        requires some { 1 ≤ length engines.old }
        requires most { length engines.old ≤ 64 }
        requires solvable { IsSolvable (body_of self.old.deck) case }
        requires place { HasPlaceFor 15000 self.old.memory }
        ensures table { IfOk result (λ done. IsTableOf (body_of self.old.deck) case
            (deck_tunnels (body_of self.old.deck) case) done.table) }
        ensures solution { IfOk result (λ done. IsSolution done.table done.solved) }
        ensures within { OnOk result (IsCaseWithin (body_of self.old.deck) case) }
        ensures learns { OnOk result (LearnsCase (body_of self.old.deck) case self.old.memory self.new.memory E.work
            engines.old engines.new) }
        ensures few { OnOk result (GainsFew 15000 self.old.memory self.new.memory) }
        ensures state { OnOk result (self.new ≡ record self.old { memory = self.new.memory }) }
        ensures err { OnErr result (IsCaseWanting case self.old self.new E.work engines.old engines.new) }
        ensures later { IsTrue self.old.refused → IsErr result }
    {
        if self.refused {
            return Err(OutOfMemory);
        }
        self.refused = true;
        let solved = solve_deck(self.alloc, rt, &self.deck, case, &mut self.memory, engines);
        // Its reading tells the proof that the shelf is one.
        let _shelf = self.memory.shelf();
        let done = solved?;
        self.refused = false;
        Ok(done)
    }
}
