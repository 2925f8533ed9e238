//! The words of the command line.
ghost use Rattle.std.specs.Prelude.{◌≡◌, ◌≤◌, ◌++◌, ◌∷◌, [], IfSome, OnErr, OnOk};
ghost use Rattle.wasp4.specs.Out as spec;
ghost use Rattle.wasp4.specs.Trial.{IsTrial, trial_asked};

use crate::asked::Asked;
use crate::trial::{TrialNumbers, trial_behind};
use hourly_load::number;
use std::alloc::Global;
use std::marker::Model;
use wasp_fixed::OutOfMemory;

/// The points that a word and a number behind it ask for: `hours`, and from 2 to 64.
fn points_behind(word: &str, points: &str) -> Option<u64>
    ensures value { result ≡ spec.points_behind word.now points.now }
    ensures range { IfSome result (λ n. (2 ≤ n) × (n ≤ 64)) }
{
    if word != "hours" {
        return None;
    }
    match number(points.as_bytes()) {
        Some(points) if (2..=64).contains(&points) => Some(points),
        _ => None,
    }
}

/// What one word asks for.
fn asked_alone(word: &str) -> Option<Asked>
    ensures value { result ≡ spec.asked_alone word.now }
    ensures range { IfSome result (λ asked. spec.IsAsked asked) }
{
    match word {
        "plan" => Some(Asked::Plan(1)),
        "check" => Some(Asked::Check),
        "search" => Some(Asked::Search),
        _ => None,
    }
}

/// What two words ask for: `best K`.
fn asked_of_two(word: &str, plans: &str) -> Option<Asked>
    ensures value { result ≡ spec.asked_of_two word.now plans.now }
    ensures range { IfSome result (λ asked. spec.IsAsked asked) }
{
    if word != "best" {
        return None;
    }
    match number(plans.as_bytes()) {
        Some(plans) if (1..=10).contains(&plans) => Some(Asked::Best(plans)),
        _ => None,
    }
}

/// What three words ask for: `plan --workers N`.
fn asked_of_three(word: &str, option: &str, workers: &str) -> Option<Asked>
    ensures value { result ≡ spec.asked_of_three word.now option.now workers.now }
    ensures range { IfSome result (λ asked. spec.IsAsked asked) }
{
    if word != "plan" || option != "--workers" {
        return None;
    }
    match number(workers.as_bytes()) {
        Some(workers) if (1..=64).contains(&workers) => Some(Asked::Plan(workers as usize)),
        _ => None,
    }
}

/// The words after the program's name, which contracts see as a list of words, each a list of bytes.
#[derive(Drop)]
pub struct CommandWords {
    alloc: Global,
    words: Vec<String>,
}

impl Model for CommandWords {
    ghost use Rattle.std.specs.Prelude.{List, ℕ, map, string_bytes};

    ghost Value = { List (List ℕ) };

    ghost view = { λ c. map string_bytes c.words.items };
}

impl CommandWords {
    /// No words; it takes no memory.
    pub fn new(alloc: Global) -> Self
        ensures { result ≡ [] }
    {
        CommandWords {
            alloc,
            words: Vec::new(alloc),
        }
    }

    /// Adds a word as the last. An `Err` leaves the words as they were.
    pub fn push(&mut self, word: &str) -> Result<(), OutOfMemory>
        ensures ok { OnOk result (self.new ≡ self.old ++ word.now ∷ []) }
        ensures err { OnErr result (self.new ≡ self.old) }
    {
        let word = String::from_str(self.alloc, word)?;
        self.words.push(word)?;
        Ok(())
    }

    /// What they ask for of a script: `plan`, `plan --workers N` with N from 1 to 64, `check`, `search`, or `best K`
    /// with K from 1 to 10.
    pub(crate) fn asked(&self) -> Option<Asked>
        ensures value { result ≡ spec.asked_by self.now }
        ensures range { IfSome result (λ asked. spec.IsAsked asked) }
    {
        match self.words.len() {
            1 => asked_alone(self.words[0].as_str()),
            2 => asked_of_two(self.words[0].as_str(), self.words[1].as_str()),
            3 => asked_of_three(
                self.words[0].as_str(),
                self.words[1].as_str(),
                self.words[2].as_str(),
            ),
            _ => None,
        }
    }

    /// The points that `hours N` asks for, from 2 to 64.
    pub(crate) fn points(&self) -> Option<u64>
        ensures value { result ≡ spec.hours_points self.now }
        ensures range { IfSome result (λ n. (2 ≤ n) × (n ≤ 64)) }
    {
        if self.words.len() != 2 {
            return None;
        }
        points_behind(self.words[0].as_str(), self.words[1].as_str())
    }

    /// The numbers that `trial SEED YEARS CANDIDATES` asks for.
    pub(crate) fn trial(&self) -> Option<TrialNumbers>
        ensures value { result ≡ trial_asked self.now }
        ensures range { IfSome result (λ t. IsTrial t) }
    {
        if self.words.len() != 4 {
            return None;
        }
        trial_behind(
            self.words[0].as_str(),
            self.words[1].as_str(),
            self.words[2].as_str(),
            self.words[3].as_str(),
        )
    }
}
