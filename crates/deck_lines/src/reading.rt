//! What the words of a line state.
ghost use Rattle.std.specs.Prelude.{◌≡◌};
ghost use Rattle.deck_lines.specs.LineFault.{Gives};
ghost use Rattle.deck_lines.specs.Statements as spec;
ghost use Rattle.deck_lines.specs.Statements.{head_word_of};

use crate::body::Body;
use crate::fault::{LineError, LineKind};
use crate::fields::{fields, groups, name};
use crate::form::Form;
use crate::head::headed_by;
use crate::head_word::HeadWord;
use crate::scan::{Word, Words};
use crate::statement::Statement;
use std::alloc::Global;

/// What the words behind a head word state. `end` is the column where a missing word is looked for.
#[tactic(auto, unfolding(crate::specs::Statements::statement_of))]
fn statement(
    alloc: Global,
    word: HeadWord,
    end: usize,
    words: &mut Words,
) -> Result<Statement, LineError>
    ensures { Gives (λ s. s) result (spec.statement_of word end words.old) }
{
    let form = Form::of(word);
    let mut index = Vec::new(alloc);
    fields(form.index, end, words, &mut index)?;
    let name = name(alloc, form.naming, end, words)?;
    let mut numbers = Vec::new(alloc);
    groups(&form, end, words, &mut numbers)?;
    Ok(Statement {
        head: headed_by(word, &index),
        body: Body::new(name, numbers),
    })
}

/// The statement that begins with a word.
pub(crate) fn headed(
    alloc: Global,
    first: Word,
    end: usize,
    words: &mut Words,
) -> Result<Statement, LineError>
    ensures { Gives (λ s. s) result (spec.headed (head_word_of first.entry.text.now) first.entry.column end words.old) }
{
    match HeadWord::from_text(first.text) {
        None => Err(LineError::at(LineKind::Word, first.column)),
        Some(word) => statement(alloc, word, end, words),
    }
}
