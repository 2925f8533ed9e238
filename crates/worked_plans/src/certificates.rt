//! Worked rows: certificates read.
ghost use Rattle.std.specs.Prelude.{IfOk};
ghost use Rattle.deck_lines.specs.Grammar.{IsCertLine, IsLine};
ghost use Rattle.plan_certificate.specs.Reading.{AreCertLines};

use deck_lines::{CertLine, Line, Mode, read_line};
use plan_certificate::{CertError, read_certificate};
use std::alloc::Global;
use std::test::Fail;

/// The line of a certificate that a line of input is.
fn cert_line(line: Line) -> Result<CertLine, Fail>
    requires { IsLine line }
    ensures { IfOk result IsCertLine }
{
    let Line::Cert(line) = line else {
        return Err(Fail::new("no line of a certificate"));
    };
    Ok(line)
}

/// The line of a certificate that a text is.
fn line_of(alloc: Global, text: &str) -> Result<CertLine, Fail>
    ensures { IfOk result IsCertLine }
{
    match read_line(alloc, Mode::Certificate, text.as_bytes()) {
        Ok(line) => cert_line(line),
        Err(_) => Err(Fail::new("no line")),
    }
}

/// The lines of a certificate's text.
fn lines_of(alloc: Global, text: &str) -> Result<Vec<CertLine>, Fail>
    ensures { IfOk result (λ lines. AreCertLines lines.items) }
{
    let mut lines = Vec::new(alloc);
    for line in text.lines() {
        lines.push(line_of(alloc, line)?)?;
    }
    Ok(lines)
}

/// The number of the first line with a fault, over three years and two candidates; none where the lines are a
/// certificate.
fn fault_of(alloc: Global, text: &str) -> Result<Option<u64>, Fail> {
    let lines = lines_of(alloc, text)?;
    match read_certificate(alloc, &lines, 3, 2) {
        Ok(_) => Ok(None),
        Err(CertError::Form(number)) => Ok(Some(number)),
        Err(CertError::OutOfMemory) => Err(Fail::new("out of memory")),
    }
}

/// Years above the last and wrong numbers of counts, with the number of the first such line.
const RANGES: [(&str, Option<u64>); 8] = [
    ("COME 3 0 0 5\nCOME 4 0 0 5\nTOTAL 5\nTOTAL 5", Some(2)),
    (
        "CHOSEN 1 0 0\nCHOSEN 2 0 0\nCHOSEN 3 0 0\nCHOSEN 4 0 0",
        Some(4),
    ),
    ("COME 1 0 0 5\nINFEASIBLE 4", Some(2)),
    ("COME 1 0 5", Some(1)),
    ("COME 1 0 0 5\nCOME 2 0 0 0 5", Some(2)),
    ("CHOSEN 1 0", Some(1)),
    ("CHOSEN 1 0 0\nCHOSEN 2 0 0 0", Some(2)),
    ("COME 3 0 0 5\nINFEASIBLE 3", None),
];

#[test]
fn years_and_counts_are_in_range(rt: HostRuntime) -> Result<(), Fail> {
    for (text, want) in RANGES {
        assert_eq!(rt; fault_of(rt.alloc(), text)?, want, "{text}");
    }
    Ok(())
}

/// Configurations named again, second totals and second infeasible years.
const REPEATS: [(&str, Option<u64>); 6] = [
    (
        "COME 1 0 0 5\nCOME 2 0 0 5\nCOME 1 0 1 5\nCOME 1 0 0 NONE",
        Some(4),
    ),
    (
        "COME 3 2 1 5\nCOME 3 0 4 5\nCOME 3 2 1 5\nCOME 3 0 4 5\nCOME 3 2 1 5",
        Some(3),
    ),
    ("TOTAL 5\nCOME 1 0 0 5\nTOTAL 6", Some(3)),
    ("INFEASIBLE 1\nINFEASIBLE 1", Some(2)),
    ("INFEASIBLE 1\nCOME 1 0 0 NONE\nINFEASIBLE 2", Some(3)),
    (
        "COME 1 0 0 5\nCOME 2 0 0 5\nCOME 1 0 1 5\nINFEASIBLE 3",
        None,
    ),
];

#[test]
fn nothing_is_said_twice(rt: HostRuntime) -> Result<(), Fail> {
    for (text, want) in REPEATS {
        assert_eq!(rt; fault_of(rt.alloc(), text)?, want, "{text}");
    }
    Ok(())
}

/// Years of a plan out of order, and plans beside infeasible years.
const ORDERS: [(&str, Option<u64>); 9] = [
    ("CHOSEN 2 0 0\nCHOSEN 3 0 0", Some(1)),
    ("CHOSEN 1 0 0\nCHOSEN 3 0 0", Some(2)),
    ("CHOSEN 1 0 0\nCHOSEN 2 0 0\nCHOSEN 2 0 0", Some(3)),
    ("CHOSEN 1 0 0\nCHOSEN 2 0 0\nCHOSEN 1 0 0", Some(3)),
    ("CHOSEN 1 0 0\nINFEASIBLE 2", Some(2)),
    ("TOTAL 5\nINFEASIBLE 1", Some(2)),
    ("INFEASIBLE 1\nCHOSEN 1 0 0", Some(2)),
    ("INFEASIBLE 1\nTOTAL 5", Some(2)),
    (
        "CHOSEN 1 0 0\nTOTAL 5\nCHOSEN 2 0 0\nCOME 3 0 0 5\nCHOSEN 3 0 0",
        None,
    ),
];

#[test]
fn a_plan_rises_year_by_year_and_excludes_an_infeasible_year(rt: HostRuntime) -> Result<(), Fail> {
    for (text, want) in ORDERS {
        assert_eq!(rt; fault_of(rt.alloc(), text)?, want, "{text}");
    }
    Ok(())
}

/// Lines without a fault that make no certificate.
const MISSING: [(&str, Option<u64>); 5] = [
    ("COME 1 0 0 5\nCOME 2 0 0 5", Some(3)),
    ("", Some(1)),
    ("TOTAL 5", Some(2)),
    ("CHOSEN 1 0 0\nCHOSEN 2 0 0\nTOTAL 5", Some(4)),
    ("CHOSEN 1 0 0\nCHOSEN 2 0 0\nCHOSEN 3 0 0", Some(4)),
];

#[test]
fn what_is_missing_is_missed_behind_the_last_line(rt: HostRuntime) -> Result<(), Fail> {
    for (text, want) in MISSING {
        assert_eq!(rt; fault_of(rt.alloc(), text)?, want, "{text}");
    }
    Ok(())
}
