//! What checks say.
ghost use Rattle.std.specs.Prelude.{◌≡◌, ◌++◌, OnOk, OnErr, codes};
ghost use Rattle.report_text.specs.Lines.{spaced};
ghost use Rattle.report_text.specs.Verdicts.{judged_words, verdict_line};
ghost use Rattle.report_text.specs.declared.verdicts.Judged.TheVariants.{Said};

use crate::refusals::{Refusal, write_refusal};
use plan_certificate::Verdict;
use wasp_fixed::OutOfMemory;

/// What a check says of its certificate.
#[derive(Clone, Copy, Debug, PartialEq, Eq)]
pub enum Judged {
    /// The deck meets a row of the fault table, or its case exceeds a limit on configurations.
    Refused(Refusal),
    /// The certificate has a fault: the number of the line, counted from 1; 0 where the deck has no such case.
    Form(u64),
    /// The certificate was judged.
    Said(Verdict),
}

/// Appends the verdict on a certificate, up to the end of its line.
fn push_said(verdict: Verdict, lines: &mut Vec<u8>) -> Result<(), OutOfMemory>
    ensures { OnOk result (lines.new.items ≡ lines.old.items ++ (spaced (judged_words (Said verdict)) ++ codes "\n")) }
{
    let alloc = *lines.allocator();
    let words = match verdict {
        Verdict::Yes => format!(in alloc; " YES\n")?,
        Verdict::No(k) => format!(in alloc; " NO {k}\n")?,
    };
    lines.extend_from_slice(words.as_bytes())?;
    Ok(())
}

/// Appends what a check says, up to the end of its line.
fn push_judged(judged: &Judged, lines: &mut Vec<u8>) -> Result<(), OutOfMemory>
    ensures { OnOk result (lines.new.items ≡ lines.old.items ++ (spaced (judged_words judged.now) ++ codes "\n")) }
{
    match judged {
        Judged::Refused(refusal) => {
            lines.push(b' ')?;
            write_refusal(refusal, lines)
        }
        Judged::Form(line) => {
            let words = format!(in *lines.allocator(); " NO 0 AT {line}\n")?;
            lines.extend_from_slice(words.as_bytes())?;
            Ok(())
        }
        Judged::Said(verdict) => push_said(*verdict, lines),
    }
}

/// Appends the line `CHECK number CASE case` with what the script's CHECK of that number, from 1, says:
/// `YES`, `NO k`, `NO 0 AT i` or `REFUSED number NAME a b c`. After `OutOfMemory` the text is as before.
pub fn write_verdict(
    number: u64,
    case: u64,
    judged: &Judged,
    text: &mut Vec<u8>,
) -> Result<(), OutOfMemory>
    ensures appended { OnOk result (text.new.items ≡ text.old.items ++ verdict_line number case judged.now) }
    ensures kept { OnErr result (text.new.items ≡ text.old.items) }
{
    let head = format!(in *text.allocator(); "CHECK {number} CASE {case}")?;
    let mut line = head.into_bytes();
    push_judged(judged, &mut line)?;
    text.extend_from_slice(&line)?;
    Ok(())
}
