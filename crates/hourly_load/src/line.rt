//! A line of hourly loads.
ghost use Rattle.std.specs.Prelude.{◌≡◌, ◌+◌, IfOk, Err};
ghost use Rattle.deck_lines.specs.Words.{words_of};
ghost use Rattle.deck_lines.specs.LineFault.{Gives};
ghost use Rattle.deck_lines.specs.Grammar.{bad_byte, is_line_byte, less_return};
ghost use Rattle.hourly_load.specs.Lines as spec;
ghost use Rattle.hourly_load.specs.Lines.{IsInRange};

use crate::scan::{next_word, number};
use deck_lines::{LineError, LineFault, LineKind, MAX_LINE};

/// The greatest load in MW.
const MAX_LOAD: u64 = 65_535;

/// What a line of hourly loads says.
#[derive(Clone, Copy, Debug, PartialEq, Eq)]
pub enum LoadLine {
    /// No word, or a comment.
    Blank,
    /// The load of an hour, 0 to 65,535 MW.
    Load(u64),
    End,
}

fn fault(kind: LineKind, column: usize) -> LineError
    ensures { result ≡ LineError.Fault (record { kind = kind; column = column }) }
{
    LineError::Fault(LineFault {
        kind,
        column: column as u64,
    })
}

fn without_return(line: &[u8]) -> &[u8]
    ensures { result.now ≡ less_return line.now }
{
    if !line.is_empty() && line[line.len() - 1] == b'\r' {
        &line[..line.len() - 1]
    } else {
        line
    }
}

fn is_line_byte(b: u8) -> bool
    ensures { result ≡ is_line_byte b }
{
    b == b' ' || b == b'\t' || (33..=126).contains(&b)
}

/// The place, from 1, of the first byte that may not stand in a line.
fn find_bad_byte(line: &[u8]) -> Option<usize>
    ensures { result ≡ bad_byte 1 line.now }
{
    for (i, b) in line.iter().enumerate() {
        if !is_line_byte(*b) {
            return Some(i + 1);
        }
    }
    None
}

/// What a line says by its first word, at its place from 1.
fn first_word(word: &[u8], column: usize) -> Result<LoadLine, LineError>
    ensures exact { Gives (λ l. l) result (spec.first_word (record { column = column; text = word.now })) }
    ensures in_range { IfOk result (λ l. IsInRange l) }
{
    if word == b"END".as_slice() {
        return Ok(LoadLine::End);
    }
    match number(word) {
        None => Err(fault(LineKind::Number, column)),
        Some(load) if load <= MAX_LOAD => Ok(LoadLine::Load(load)),
        Some(_) => Err(fault(LineKind::Range, column)),
    }
}

/// The line of a text, from which the carriage return is gone.
fn text_line(text: &[u8]) -> Result<LoadLine, LineError>
    ensures exact { Gives (λ l. l) result (spec.text_line text.now (words_of text.now)) }
    ensures in_range { IfOk result (λ l. IsInRange l) }
{
    let Some(first) = next_word(text, 0) else {
        return Ok(LoadLine::Blank);
    };
    let word = &text[first.start..first.end];
    if word.first() == Some(&b'#') {
        return Ok(LoadLine::Blank);
    }
    if let Some(column) = find_bad_byte(text) {
        return Err(fault(LineKind::Byte, column));
    }
    let line = first_word(word, first.start + 1)?;
    match next_word(text, first.end) {
        None => Ok(line),
        Some(second) => Err(fault(LineKind::Count, second.start + 1)),
    }
}

/// Reads the bytes before a line feed.
///
/// The kind of a fault is the first that applies, in this order: LONG for more than 4,096 bytes, a carriage
/// return counted; BYTE for a byte that is no space, tab or 33 to 126, in a line that is not blank; NUMBER for a
/// first word that is neither END nor a number, and RANGE for one above 65,535; COUNT for a second word. It takes
/// no memory.
#[tactic(auto, unfolding(crate::specs::Lines::load_line_of))]
pub fn read_load(bytes: &[u8]) -> Result<LoadLine, LineError>
    ensures exact { Gives (λ l. l) result (spec.load_line_of bytes.now) }
    ensures in_range { IfOk result (λ l. IsInRange l) }
{
    if bytes.len() > MAX_LINE {
        return Err(fault(LineKind::Long, MAX_LINE + 1));
    }
    text_line(without_return(bytes))
}
