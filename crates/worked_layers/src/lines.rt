//! Worked rows: lines and the deck that they edit.
ghost use Rattle.std.specs.Prelude.{◌≤◌, IfOk, IfSome};
ghost use Rattle.deck_lines.specs.Statements.{IsStatement};

mod cases;

use deck_lines::{CertLine, Deck, Head, Line, LineError, MAX_LINE, Mode, Statement, read_line};
use plant_data::Config;
use std::alloc::{AllocError, Global};
use std::test::Fail;

fn statement_said(alloc: Global, statement: &Statement) -> Result<String, AllocError> {
    let mut text = format!(in alloc; "{:?}", statement.head)?;
    if !statement.body.name().is_empty() {
        text.push(' ')?;
    }
    for b in statement.body.name() {
        text.push(char::from(*b))?;
    }
    for n in statement.body.numbers() {
        let more = format!(in alloc; " {n}")?;
        text.push_str(&more)?;
    }
    Ok(text)
}

fn counts_said(alloc: Global, config: &Config) -> Result<String, AllocError> {
    let mut text = String::new(alloc);
    for k in 0..config.width() {
        if k > 0 {
            text.push(' ')?;
        }
        let more = format!(in alloc; "{}", config.get(k))?;
        text.push_str(&more)?;
    }
    Ok(text)
}

fn cert_said(alloc: Global, line: &CertLine) -> Result<String, AllocError> {
    match line {
        CertLine::Come {
            year,
            config,
            value,
        } => {
            let counts = counts_said(alloc, config)?;
            match value {
                Some(v) => format!(in alloc; "Come {year} [{counts}] {v}"),
                None => format!(in alloc; "Come {year} [{counts}] NONE"),
            }
        }
        CertLine::Chosen { year, config } => {
            let counts = counts_said(alloc, config)?;
            format!(in alloc; "Chosen {year} [{counts}]")
        }
        CertLine::Total(value) => format!(in alloc; "Total {value}"),
        CertLine::Infeasible(year) => format!(in alloc; "Infeasible {year}"),
    }
}

fn line_said(alloc: Global, line: &Line) -> Result<String, AllocError> {
    match line {
        Line::Blank => format!(in alloc; "Blank"),
        Line::Set(statement) => statement_said(alloc, statement),
        Line::Drop(head) => format!(in alloc; "Drop {head:?}"),
        Line::Plan => format!(in alloc; "Plan"),
        Line::Check(case) => format!(in alloc; "Check {case}"),
        Line::Cert(line) => cert_said(alloc, line),
        Line::Skip => format!(in alloc; "Skip"),
        Line::EndCheck => format!(in alloc; "EndCheck"),
        Line::End => format!(in alloc; "End"),
    }
}

/// The line, or the kind and the column of its fault.
fn said(alloc: Global, mode: Mode, bytes: &[u8]) -> Result<String, AllocError> {
    match read_line(alloc, mode, bytes) {
        Ok(line) => line_said(alloc, &line),
        Err(LineError::Fault(fault)) => { format!(in alloc; "{:?} {}", fault.kind, fault.column) }
        Err(LineError::OutOfMemory) => Err(AllocError),
    }
}

/// How many lines of a table were read, and how many of them say something else.
fn count_wrong(alloc: Global, mode: Mode, table: &str) -> Result<(usize, usize), AllocError> {
    let (mut read, mut wrong): (usize, usize) = (0, 0);
    for row in table.lines() {
        let (text, want) = row.split_once('|').unwrap_or(("", "no bar"));
        let got = said(alloc, mode, text.as_bytes())?;
        read = read.saturating_add(1);
        if got.as_str() != want {
            wrong = wrong.saturating_add(1);
        }
    }
    Ok((read, wrong))
}

#[test]
fn lines_say_what_the_tables_say(rt: HostRuntime) -> Result<(), Fail> {
    let alloc = rt.alloc();
    assert_eq!(rt; count_wrong(alloc, Mode::Plan, cases::STATEMENTS)?, (64, 0));
    assert_eq!(rt; count_wrong(alloc, Mode::Plan, cases::DROPS)?, (24, 0));
    assert_eq!(rt; count_wrong(alloc, Mode::Plan, cases::FAULTS)?, (101, 0));
    assert_eq!(rt; count_wrong(alloc, Mode::Check, cases::CHECKS)?, (11, 0));
    assert_eq!(rt;
        count_wrong(alloc, Mode::Certificate, cases::CERTIFICATES)?,
        (48, 0)
    );
    Ok(())
}

/// A comment of this many bytes, with a carriage return at its end.
fn comment(alloc: Global, length: usize) -> Result<Vec<u8>, AllocError>
    requires { length ≤ 5000 }
{
    let mut line = vec![in alloc; b'#'; length]?;
    line.push(b'\r')?;
    Ok(line)
}

#[test]
fn a_long_comment_is_long(rt: HostRuntime) -> Result<(), Fail> {
    let alloc = rt.alloc();
    for (length, want) in [(4095, "Blank"), (4096, "Long 4097"), (4097, "Long 4097")] {
        let got = said(alloc, Mode::Plan, &comment(alloc, length)?)?;
        assert_eq!(rt; got.as_str(), want, "at {length}");
    }
    assert_eq!(rt; MAX_LINE, 4096);
    Ok(())
}

/// The statement of a line, which the test wants.
fn statement(alloc: Global, text: &str) -> Result<Option<Statement>, AllocError>
    ensures { IfOk result (λ o. IfSome o (λ s. IsStatement s)) }
{
    match read_line(alloc, Mode::Plan, text.as_bytes()) {
        Ok(Line::Set(statement)) => Ok(Some(statement)),
        Ok(_) | Err(LineError::Fault(_)) => Ok(None),
        Err(LineError::OutOfMemory) => Err(AllocError),
    }
}

fn set(alloc: Global, deck: &mut Deck, text: &str) -> Result<(), AllocError> {
    match statement(alloc, text)? {
        Some(statement) => deck.set(statement).map_err(|_| AllocError),
        None => Ok(()),
    }
}

fn ens(deck: &Deck) -> Option<u64> {
    let body = deck.get(&Head::Ens)?;
    body.numbers().first().copied()
}

#[test]
fn a_later_statement_takes_the_place_of_the_earlier(rt: HostRuntime) -> Result<(), Fail> {
    let alloc = rt.alloc();
    let mut deck = Deck::new(alloc);
    assert_eq!(rt; ens(&deck), None);
    set(alloc, &mut deck, "ENS 5")?;
    set(alloc, &mut deck, "LOAD 2 10 1")?;
    set(alloc, &mut deck, "LOAD 3 10 1")?;
    set(alloc, &mut deck, "ENS 6")?;
    assert_eq!(rt; ens(&deck), Some(6));
    deck.drop_head(&Head::Load(2));
    deck.drop_head(&Head::Load(4));
    assert!(rt; deck.get(&Head::Load(2)).is_none() && deck.get(&Head::Load(3)).is_some());
    deck.drop_head(&Head::Ens);
    assert_eq!(rt; ens(&deck), None);
    Ok(())
}
