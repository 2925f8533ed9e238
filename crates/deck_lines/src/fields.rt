//! The fields of a statement, whichever form they have.
ghost use Rattle.std.specs.Prelude.{◌≡◌, ◌≤◌, length, IfOk};
ghost use Rattle.std.specs.List.{list_all};
ghost use Rattle.deck_lines.specs.Words.{piece_of};
ghost use Rattle.deck_lines.specs.LineFault.{Gives};
ghost use Rattle.deck_lines.specs.Statements.{number_at, fields_onto, groups_onto, name_at, is_name, is_name_byte, is_rule};

use crate::fault::{LineError, LineKind};
use crate::form::{Form, Kind, Naming};
use crate::numbers::number;
use crate::scan::{Word, Words};
use std::alloc::Global;

pub(crate) fn number_field(kind: Kind, word: Word) -> Result<u64, LineError>
    ensures { Gives (λ n. n) result (number_at kind (piece_of word.entry)) }
{
    match number(word.text) {
        None => Err(LineError::at(LineKind::Number, word.column)),
        Some(n) if kind.allows(n) => Ok(n),
        Some(_) => Err(LineError::at(LineKind::Range, word.column)),
    }
}

/// A word for each kind.
#[tactic(auto, unfolding(crate::specs::Statements::fields_onto))]
pub(crate) fn fields(
    kinds: &[Kind],
    end: usize,
    words: &mut Words,
    out: &mut Vec<u64>,
) -> Result<(), LineError>
    ensures { Gives (λ _. (out.new.items, words.new)) result (fields_onto out.old.items end kinds.now words.old) }
{
    for kind in kinds {
        match words.next() {
            None => return Err(LineError::at(LineKind::Count, end)),
            Some(word) => out.push(number_field(*kind, word)?)?,
        }
    }
    Ok(())
}

/// Groups of fields to the end of the line.
#[tactic(auto, unfolding(crate::specs::Statements::groups_onto))]
pub(crate) fn groups(
    form: &Form,
    end: usize,
    words: &mut Words,
    out: &mut Vec<u64>,
) -> Result<(), LineError>
    ensures { Gives (λ _. out.new.items) result (groups_onto out.old.items end form.now.group.now form.now.least form.now.most words.old) }
{
    for done in 0..form.most {
        if words.is_empty() {
            if done < form.least {
                return Err(LineError::at(LineKind::Count, end));
            }
            return Ok(());
        }
        fields(form.group, end, words, out)?;
    }
    match words.next() {
        None => Ok(()),
        Some(word) => Err(LineError::at(LineKind::Count, word.column)),
    }
}

fn is_name(text: &[u8]) -> bool
    ensures { result ≡ is_name text.now }
{
    if text.is_empty() || text.len() > 8 {
        return false;
    }
    are_name_bytes(text)
}

fn are_name_bytes(text: &[u8]) -> bool
    ensures { result ≡ list_all is_name_byte text.now }
{
    text.iter().all(|b| is_name_byte(*b))
}

fn is_name_byte(b: u8) -> bool
    ensures { result ≡ is_name_byte b }
{
    b.is_ascii_uppercase() || b.is_ascii_lowercase() || b.is_ascii_digit() || b == b'_' || b == b'-'
}

#[tactic(auto, unfolding(crate::specs::Statements::name_at))]
pub(crate) fn name(
    alloc: Global,
    naming: Naming,
    end: usize,
    words: &mut Words,
) -> Result<Vec<u8>, LineError>
    ensures exact { Gives (λ name. (name.items, words.new)) result (name_at naming end words.old) }
    ensures short { IfOk result (λ name. length name.items ≤ 8) }
{
    match naming {
        Naming::Unnamed => Ok(Vec::new(alloc)),
        Naming::Named => match words.next() {
            None => Err(LineError::at(LineKind::Count, end)),
            Some(word) if is_name(word.text) => Ok(Vec::from_slice(alloc, word.text)?),
            Some(word) => Err(LineError::at(LineKind::Number, word.column)),
        },
        Naming::Rule => match words.next() {
            None => Err(LineError::at(LineKind::Count, end)),
            Some(word) if is_rule(word.text) => Ok(Vec::from_slice(alloc, word.text)?),
            Some(word) => Err(LineError::at(LineKind::Number, word.column)),
        },
    }
}

fn is_rule(text: &[u8]) -> bool
    ensures { result ≡ is_rule text.now }
{
    text == b"MERIT".as_slice() || text == b"BASE".as_slice()
}
