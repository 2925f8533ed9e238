//! A line of a deck, a script or a certificate.
ghost use Rattle.std.specs.Prelude.{◌≡◌, ◌+◌, IfOk};
ghost use Rattle.deck_lines.specs.Words.{piece_of, words_of};
ghost use Rattle.deck_lines.specs.LineFault.{Gives};
ghost use Rattle.deck_lines.specs.Grammar as spec;
ghost use Rattle.deck_lines.specs.Grammar.{IsLine};
ghost use Rattle.deck_lines.specs.Canonical.{StatementsReadBack};

use crate::behind::behind;
use crate::fault::{LineError, LineKind};
use crate::head::Head;
use crate::line_word::LineWord;
use crate::reading::headed;
use crate::scan::{Word, Words};
use crate::statement::Statement;
use plant_data::Config;
use std::alloc::Global;

/// The most bytes of a line, without its line feed.
pub const MAX_LINE: usize = 4096;

/// What is read: the script of `plan`, the script of `check`, or a certificate in that script, from a
/// CHECK line to its ENDCHECK.
#[derive(Clone, Copy, Debug, PartialEq, Eq)]
pub enum Mode {
    Plan,
    Check,
    Certificate,
}

/// A line of a certificate. Years are 1 to 30, counts 0 to 128, values below 10^18 dollars.
#[derive(Debug, Drop)]
pub enum CertLine {
    /// The cost-to-come of a configuration, or none.
    Come {
        year: u64,
        config: Config,
        value: Option<u64>,
    },
    /// The configuration that the plan has in a year.
    Chosen {
        year: u64,
        config: Config,
    },
    /// The cost of the plan.
    Total(u64),
    /// The first year that has no plan.
    Infeasible(u64),
}

/// What a line says.
#[derive(Debug, Drop)]
pub enum Line {
    /// No word, or a comment.
    Blank,
    /// A statement takes the place of the one with its head.
    Set(Statement),
    /// The statement with this head goes.
    Drop(Head),
    Plan,
    /// A certificate of this case, 1 to 8, begins.
    Check(u64),
    Cert(CertLine),
    /// A line of a report that no certificate needs.
    Skip,
    EndCheck,
    End,
}

fn without_return(line: &[u8]) -> &[u8]
    ensures { result.now ≡ spec.less_return line.now }
{
    if !line.is_empty() && line[line.len() - 1] == b'\r' {
        &line[..line.len() - 1]
    } else {
        line
    }
}

fn is_line_byte(b: u8) -> bool
    ensures { result ≡ spec.is_line_byte b }
{
    b == b' ' || b == b'\t' || (33..=126).contains(&b)
}

/// The place, from 1, of the first byte that may not stand in a line.
fn find_bad_byte(line: &[u8]) -> Option<usize>
    ensures { result ≡ spec.bad_byte 1 line.now }
{
    for (i, b) in line.iter().enumerate() {
        if !is_line_byte(*b) {
            return Some(i + 1);
        }
    }
    None
}

/// The line that begins with a word.
fn begun(
    alloc: Global,
    mode: Mode,
    first: Word,
    end: usize,
    words: &mut Words,
) -> Result<Line, LineError>
    ensures { Gives (λ l. l) result (spec.begun (spec.line_word_of mode first.entry.text.now) mode end (piece_of first.entry) words.old) }
{
    match LineWord::from_text(mode, first.text) {
        Some(word) => behind(alloc, word, end, words),
        None => match mode {
            Mode::Plan | Mode::Check => Ok(Line::Set(headed(alloc, first, end, words)?)),
            Mode::Certificate => Err(LineError::at(LineKind::Word, first.column)),
        },
    }
}

/// The line of a text, from which the carriage return is gone.
fn text_line(alloc: Global, mode: Mode, text: &[u8]) -> Result<Line, LineError>
    ensures { Gives (λ l. l) result (spec.text_line mode text.now (words_of text.now)) }
{
    let mut words = Words::new(text);
    let Some(first) = words.next() else {
        return Ok(Line::Blank);
    };
    if first.text.first() == Some(&b'#') {
        return Ok(Line::Blank);
    }
    if let Some(column) = find_bad_byte(text) {
        return Err(LineError::at(LineKind::Byte, column));
    }
    begun(alloc, mode, first, text.len() + 1, &mut words)
}

/// Reads the bytes before a line feed.
///
/// The kind of a fault is the first that applies, in this order: LONG for more than 4,096 bytes, a
/// carriage return counted; BYTE for a byte that is no space, tab or 33 to 126, in a line that is not
/// blank; WORD for a first word, or a head word after DROP, that is unknown or not allowed in the
/// mode; and then, from left to right, COUNT for a word that is missing or too many, NUMBER for a word
/// that is no number or no name where one is due, and RANGE.
#[tactic(auto, unfolding(crate::specs::Grammar::line_of))]
pub fn read_line(alloc: Global, mode: Mode, bytes: &[u8]) -> Result<Line, LineError>
    ensures exact { Gives (λ l. l) result (spec.line_of mode bytes.now) }
    // What is read is in its form, each number in its range.
    ensures in_form { IfOk result (λ l. IsLine l) }
{
    if bytes.len() > MAX_LINE {
        return Err(LineError::at(LineKind::Long, MAX_LINE + 1));
    }
    text_line(alloc, mode, without_return(bytes))
}

/// The text of every statement, its words one space apart and its numbers without leading zeros, is
/// read back as that statement.
pub fn statements_read_back()
    ensures { StatementsReadBack }
{}
