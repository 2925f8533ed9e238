//! The deck as edited so far.
ghost use Rattle.std.specs.Prelude.{◌≡◌, ◌<◌, [], length, Option, IfSome, IfOk, OnOk, OnErr};
ghost use Rattle.std.specs.Option.{option_copied};
ghost use Rattle.deck_lines.specs.declared.statement.Statement.{Statement as Stated};
ghost use Rattle.deck_lines.specs.Deck as spec;
ghost use Rattle.deck_lines.specs.Deck.{IsDeck, DecksFollowScripts};
ghost use Rattle.deck_lines.specs.Statements.{IsStatement};

use crate::body::Body;
use crate::head::Head;
use crate::statement::Statement;
use std::alloc::Global;
use std::marker::Model;
use wasp_fixed::OutOfMemory;

/// The statements that stand, each head once. Contracts see the list of the statements, each in its
/// form, in the order in which their heads were first set.
#[derive(Clone, Debug, Drop)]
pub struct Deck {
    statements: Vec<Statement>,
}

impl Model for Deck {
    ghost use Rattle.std.specs.Prelude.{List, IsTrue};
    ghost use Rattle.deck_lines.specs.declared.statement.Statement.{Statement};
    ghost use Rattle.deck_lines.specs.Deck.{is_deck};

    ghost Value = { List Statement };

    ghost view = { λ d. d.statements.items };

    ghost invariant = { λ d. IsTrue (is_deck d.statements.items) };
}

/// The place of the statement with this head.
fn find_place(statements: &[Statement], head: Head) -> Option<usize>
    ensures within { IfSome result (λ i. i < length statements.now) }
    ensures place { (s : Stated) → s.head ≡ head → spec.put statements.now s ≡ spec.put_at result statements.now s }
{
    for (i, statement) in statements.iter().enumerate() {
        if statement.head.is_same(head) {
            return Some(i);
        }
    }
    None
}

fn put(statements: &mut Vec<Statement>, statement: Statement) -> Result<(), OutOfMemory>
    ensures ok { OnOk result (statements.new.items ≡ spec.put statements.old.items statement) }
    ensures err { OnErr result (statements.new.items ≡ statements.old.items) }
{
    match find_place(statements, statement.head) {
        Some(i) => {
            statements[i] = statement;
            Ok(())
        }
        None => {
            statements.push(statement)?;
            Ok(())
        }
    }
}

fn remove(statements: &mut Vec<Statement>, gone: Head)
    ensures { statements.new.items ≡ spec.without statements.old.items gone }
{
    statements.retain(|statement| !statement.head.is_same(gone));
}

fn find_body(statements: &[Statement], head: Head) -> Option<&Body>
    ensures { option_copied result ≡ spec.body_of statements.now head }
{
    for statement in statements {
        if statement.head.is_same(head) {
            return Some(&statement.body);
        }
    }
    None
}

impl Deck {
    /// An empty deck, which takes no memory.
    pub fn new(alloc: Global) -> Deck
        ensures { result ≡ [] }
    {
        Deck {
            statements: Vec::new(alloc),
        }
    }

    /// A deck with the same statements.
    pub fn copy(&self) -> Result<Deck, OutOfMemory>
        ensures { IfOk result (λ deck. deck ≡ self.now) }
    {
        Ok(self.clone()?)
    }

    /// Puts the statement in the place of that with its head, or adds it. Refused, it leaves the deck as
    /// it was.
    pub fn set(&mut self, statement: Statement) -> Result<(), OutOfMemory>
        requires { IsStatement statement }
        ensures ok { OnOk result (self.new ≡ spec.put self.old statement) }
        ensures err { OnErr result (self.new ≡ self.old) }
    {
        put(&mut self.statements, statement)
    }

    /// Takes the statement with this head away. An absent head changes nothing.
    pub fn drop_head(&mut self, head: &Head)
        ensures { self.new ≡ spec.without self.old head.now }
    {
        remove(&mut self.statements, *head);
    }

    /// The body of a head, and none exactly where the head is absent.
    pub fn get(&self, head: &Head) -> Option<&Body>
        ensures value { option_copied result ≡ spec.body_of self.now head.now }
        ensures in_form { IfSome result (λ b. IsStatement (record { head = head.now; body = b.now })) }
        ensures valid { IsDeck self.now }
    {
        find_body(&self.statements, *head)
    }
}

/// The list that the edits of any lines make is the deck that the script says, looking back.
pub fn decks_follow_scripts()
    ensures { DecksFollowScripts }
{}
