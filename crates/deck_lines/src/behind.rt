//! What stands behind the word of a line that is no statement.
ghost use Rattle.std.specs.Prelude.{◌≡◌};
ghost use Rattle.deck_lines.specs.Words.{piece_of};
ghost use Rattle.deck_lines.specs.LineFault.{Gives};
ghost use Rattle.deck_lines.specs.Grammar as spec;
ghost use Rattle.deck_lines.specs.Grammar.{AreCounts};
ghost use Rattle.deck_lines.specs.Statements.{head_word_of};

use crate::fault::{LineError, LineKind};
use crate::fields::{fields, groups, number_field};
use crate::form::{CASE, Form, Kind, UNITS, YEAR};
use crate::head::headed_by;
use crate::head_word::HeadWord;
use crate::line::{CertLine, Line};
use crate::line_word::LineWord;
use crate::scan::{Word, Words};
use plant_data::{Config, MAX_WIDTH};
use std::alloc::Global;

/// Any number of 18 digits.
const NUMBER: Kind = Kind::Number(0, 999_999_999_999_999_999);

/// The line, where no word is left.
fn ended(line: Line, words: &mut Words) -> Result<Line, LineError>
    ensures { Gives (λ l. l) result (spec.ended line words.old) }
{
    match words.next() {
        None => Ok(line),
        Some(word) => Err(LineError::at(LineKind::Count, word.column)),
    }
}

fn number_then(kind: Kind, end: usize, words: &mut Words) -> Result<u64, LineError>
    ensures { Gives (λ n. (n, words.new)) result (spec.number_then kind end words.old) }
{
    match words.next() {
        None => Err(LineError::at(LineKind::Count, end)),
        Some(word) => number_field(kind, word),
    }
}

fn dropped(alloc: Global, first: Word, end: usize, words: &mut Words) -> Result<Line, LineError>
    ensures { Gives (λ l. l) result (spec.dropped (head_word_of first.entry.text.now) first.entry.column end words.old) }
{
    match HeadWord::from_text(first.text) {
        None => Err(LineError::at(LineKind::Word, first.column)),
        Some(word) => {
            let mut index = Vec::new(alloc);
            fields(Form::of(word).index, end, words, &mut index)?;
            ended(Line::Drop(headed_by(word, &index)), words)
        }
    }
}

fn drop_line(alloc: Global, end: usize, words: &mut Words) -> Result<Line, LineError>
    ensures { Gives (λ l. l) result (spec.drop_line end words.old) }
{
    match words.next() {
        None => Err(LineError::at(LineKind::Count, end)),
        Some(word) => dropped(alloc, word, end, words),
    }
}

/// Reads 1 to 14 counts, and the last word of the line.
#[tactic(auto, unfolding(crate::specs::Grammar::counts_onto))]
fn counts<'a>(end: usize, words: &mut Words<'a>, out: &mut Vec<u64>) -> Result<Word<'a>, LineError>
    ensures { Gives (λ w. (out.new.items, piece_of w)) result (spec.counts_onto out.old.items end 1 14 words.old) }
{
    let Some(first) = words.next() else {
        return Err(LineError::at(LineKind::Count, end));
    };
    let mut word = first;
    for done in 0..MAX_WIDTH {
        let Some(next) = words.next() else {
            if done == 0 {
                return Err(LineError::at(LineKind::Count, end));
            }
            return Ok(word);
        };
        out.push(number_field(UNITS, word)?)?;
        word = next;
    }
    match words.next() {
        None => Ok(word),
        Some(_) => Err(LineError::at(LineKind::Count, word.column)),
    }
}

/// The configuration of these counts.
fn config_of(counts: &[u64]) -> Config
    requires { AreCounts counts.now }
    ensures { result ≡ counts.now }
{
    let mut config = Config::zero(counts.len());
    for (k, count) in counts.iter().enumerate() {
        config.set(k, *count);
    }
    config
}

fn value_at(word: Word) -> Result<Option<u64>, LineError>
    ensures { Gives (λ v. v) result (spec.value_at (piece_of word.entry)) }
{
    if word.text == b"NONE".as_slice() {
        return Ok(None);
    }
    Ok(Some(number_field(NUMBER, word)?))
}

fn come_line(alloc: Global, end: usize, words: &mut Words) -> Result<Line, LineError>
    ensures { Gives (λ l. l) result (spec.come_line end words.old) }
{
    let year = number_then(YEAR, end, words)?;
    let mut read = Vec::new(alloc);
    let last = counts(end, words, &mut read)?;
    let value = value_at(last)?;
    Ok(Line::Cert(CertLine::Come {
        year,
        config: config_of(&read),
        value,
    }))
}

fn chosen_line(alloc: Global, end: usize, words: &mut Words) -> Result<Line, LineError>
    ensures { Gives (λ l. l) result (spec.chosen_line end words.old) }
{
    let year = number_then(YEAR, end, words)?;
    let mut read = Vec::new(alloc);
    groups(
        &Form::repeated(&[], &[UNITS], 1, MAX_WIDTH),
        end,
        words,
        &mut read,
    )?;
    Ok(Line::Cert(CertLine::Chosen {
        year,
        config: config_of(&read),
    }))
}

/// What stands behind the word of a line.
pub(crate) fn behind(
    alloc: Global,
    word: LineWord,
    end: usize,
    words: &mut Words,
) -> Result<Line, LineError>
    ensures { Gives (λ l. l) result (spec.behind word end words.old) }
{
    match word {
        LineWord::Drop => drop_line(alloc, end, words),
        LineWord::Plan => ended(Line::Plan, words),
        LineWord::Check => {
            let case = number_then(CASE, end, words)?;
            ended(Line::Check(case), words)
        }
        LineWord::End => ended(Line::End, words),
        LineWord::Come => come_line(alloc, end, words),
        LineWord::Chosen => chosen_line(alloc, end, words),
        LineWord::Total => {
            let value = number_then(NUMBER, end, words)?;
            ended(Line::Cert(CertLine::Total(value)), words)
        }
        LineWord::Infeasible => {
            let year = number_then(YEAR, end, words)?;
            ended(Line::Cert(CertLine::Infeasible(year)), words)
        }
        LineWord::EndCheck => ended(Line::EndCheck, words),
        LineWord::Case
        | LineWord::Edge
        | LineWord::Terms
        | LineWord::Risk
        | LineWord::Short
        | LineWord::Gen => Ok(Line::Skip),
    }
}
