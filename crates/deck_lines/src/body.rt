//! What stands behind the head of a statement.
ghost use Rattle.std.specs.Prelude.{◌≡◌, ◌≤◌, length};

use std::marker::Model;

/// A name of at most 8 bytes, empty where the statement has none, and numbers.
#[derive(Clone, Debug, Drop)]
pub struct Body {
    name: Vec<u8>,
    numbers: Vec<u64>,
}

impl Model for Body {
    ghost use Rattle.std.specs.Prelude.{◌≤◌, length};
    ghost use Rattle.deck_lines.specs.Body.{BodyParts};

    ghost Value = { BodyParts };

    ghost view = { λ b. record { name = b.name.items; numbers = b.numbers.items } };

    ghost invariant = { λ b. length b.name.items ≤ 8 };
}

impl Body {
    /// A body of these parts.
    pub fn new(name: Vec<u8>, numbers: Vec<u64>) -> Body
        requires { length name.items ≤ 8 }
        ensures { result ≡ record { name = name.items; numbers = numbers.items } }
    {
        Body { name, numbers }
    }

    /// The name, or the word of a RULE; empty where the statement has none.
    pub fn name(&self) -> &[u8]
        ensures name { result.now ≡ self.now.name }
        ensures short { length self.now.name ≤ 8 }
    {
        &self.name
    }

    /// The numbers behind the name, in their order in the line.
    pub fn numbers(&self) -> &[u64]
        ensures { result.now ≡ self.now.numbers }
    {
        &self.numbers
    }
}
