//! Certificates from lines.
ghost use Rattle.std.specs.Prelude.{◌≡◌, ◌≢◌, ◌↔◌, ℕ, ◌+◌, ◌<◌, ◌≤◌, ◌++◌, [], ◌∷◌, Err, IfOk, IfSome, IsTrue, None, OnOk, length, slice_index_or, take, true, false};
ghost use Rattle.plan_certificate.specs.Certificate.{CertData, IsClaim};
ghost use Rattle.plan_certificate.specs.Gathered.{IsAgainBelow};
ghost use Rattle.plan_certificate.specs.Form.{Adds, IsFaultyWith, IsRead, claim_of};
ghost use Rattle.plan_certificate.specs.Reading.{AreCertLines, AreInForm, IsClaimedBy, IsComplete, IsFirstFault, IsFormFault, IsSaidBy, line_at};
ghost use Rattle.plan_certificate.specs.declared.reading.CertError.TheVariants.{OutOfMemory, Form};

use crate::certificate::Certificate;
use crate::gathered::gather;
use deck_lines::CertLine;
use plan_program::Outcome;
use plant_data::{Config, Listed};
use std::alloc::{AllocError, AllocFailed, Global};
use thiserror::Error;

/// Why lines are no certificate.
#[derive(Debug, Drop, Error)]
pub enum CertError {
    #[error("out of memory")]
    OutOfMemory,
    /// The number, from 1, of the first line with a fault; where none has one and something is missing, the
    /// number of lines plus 1.
    #[error("line {0} of the certificate")]
    Form(u64),
}

impl From<AllocError> for CertError {
    ghost from_gives = { λ _ e. e ≡ OutOfMemory };

    fn from(_: AllocError) -> CertError {
        CertError::OutOfMemory
    }
}

impl<T: Drop> From<AllocFailed<T>> for CertError {
    ghost from_gives = { λ _ e. e ≡ OutOfMemory };

    fn from(_: AllocFailed<T>) -> CertError {
        CertError::OutOfMemory
    }
}

/// What the lines so far claim.
#[derive(Drop)]
struct Reading {
    chosen: Vec<Config>,
    total: Option<u64>,
    infeasible: Option<u64>,
}

impl Reading {
    /// Whether a line has a fault, given whether it names a configuration again.
    fn is_faulty(&self, years: u64, width: usize, line: &CertLine, again: bool) -> bool
        ensures { IsTrue result ↔ IsFaultyWith years width self.now again line.now }
    {
        match line {
            CertLine::Come { year, config, .. } => {
                *year > years || config.width() != width || again
            }
            CertLine::Chosen { year, config } => {
                *year > years
                    || config.width() != width
                    || *year != self.chosen.len() as u64 + 1
                    || self.infeasible.is_some()
            }
            CertLine::Total(_) => self.total.is_some() || self.infeasible.is_some(),
            CertLine::Infeasible(year) => {
                *year > years
                    || self.infeasible.is_some()
                    || !self.chosen.is_empty()
                    || self.total.is_some()
            }
        }
    }

    /// Adds what a line claims.
    fn add(&mut self, line: &CertLine) -> Result<(), AllocError>
        ensures { OnOk result (Adds line.now self.old self.new) }
    {
        match line {
            CertLine::Come { .. } => {}
            CertLine::Chosen { config, .. } => self.chosen.push(*config)?,
            CertLine::Total(total) => self.total = Some(*total),
            CertLine::Infeasible(year) => self.infeasible = Some(*year),
        }
        Ok(())
    }
}

/// What the lines claim, or the number of the first that has a fault.
fn read_form(
    alloc: Global,
    lines: &[CertLine],
    years: u64,
    width: usize,
    again: &[bool],
) -> Result<Reading, CertError>
    requires years { years ≤ 30 }
    requires ranges { AreCertLines lines.now }
    requires long { length again.now ≡ length lines.now }
    requires again { (line : ℕ) → (slice_index_or again.now line false ≡ true) ↔ IsAgainBelow lines.now years line }
    ensures form { IfOk result (λ r. AreInForm years width lines.now (length lines.now)) }
    ensures read { IfOk result (λ r. IsRead lines.now r) }
    ensures fault { (n : ℕ) → result ≡ Err (Form n) → IsFirstFault years width lines.now n }
{
    let mut reading = Reading {
        chosen: Vec::new(alloc),
        total: None,
        infeasible: None,
    };
    for k in 0..lines.len() {
        let line = &lines[k];
        if reading.is_faulty(years, width, line, again[k]) {
            return Err(CertError::Form(k as u64 + 1));
        }
        reading.add(line)?;
    }
    Ok(reading)
}

/// The claim of lines that have no fault, where nothing is missing.
fn claim_of(reading: Reading, years: u64) -> Option<Outcome>
    ensures { result ≡ claim_of years reading.chosen.items reading.total reading.infeasible }
{
    if let Some(year) = reading.infeasible {
        return Some(Outcome::Infeasible(year));
    }
    let total = reading.total?;
    if reading.chosen.len() as u64 != years {
        return None;
    }
    Some(Outcome::Plan {
        configs: Listed::new(reading.chosen),
        total,
    })
}

/// The certificate that the lines of a CHECK say, blank and skipped lines left out.
///
/// `Form` comes exactly where a line has a fault or something is missing, with the number of the first line
/// with a fault, counted from 1, or else the number of lines plus 1. A line has a fault where its year is above
/// `years`, its number of counts is not `width`, a COME names a year and configuration that an earlier one
/// named, the first CHOSEN is not of year 1 or a later one not of the year after the one before, it is a second
/// TOTAL or INFEASIBLE, an INFEASIBLE after a CHOSEN or TOTAL, or a CHOSEN or TOTAL after an INFEASIBLE. Nothing
/// is missing where there is an INFEASIBLE, or a CHOSEN for every year and a TOTAL. This program's own.
pub fn read_certificate(
    alloc: Global,
    lines: &[CertLine],
    years: u64,
    width: usize,
) -> Result<Certificate, CertError>
    requires ranges { AreCertLines lines.now }
    requires first_year { 1 ≤ years }
    requires last_year { years ≤ 30 }
    requires narrow { 1 ≤ width }
    requires wide { width ≤ 14 }
    ensures ok { IfOk result (λ c. IsSaidBy years width lines.now c) }
    ensures form { (n : ℕ) → result ≡ Err (Form n) → IsFormFault years width lines.now n }
    ensures complete { IfOk result (λ c. AreInForm years width lines.now (length lines.now) × IsComplete years lines.now) }
{
    let gathered = gather(alloc, lines, years)?;
    let reading = read_form(alloc, lines, years, width, &gathered.again)?;
    let Some(claim) = claim_of(reading, years) else {
        return Err(CertError::Form(lines.len() as u64 + 1));
    };
    Ok(Certificate::new(years, width, gathered.years, claim))
}
