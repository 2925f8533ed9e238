//! The distinct systems of a run, by number, and the codes of keys.
ghost use Rattle.std.specs.Prelude.{◌≡◌, ◌≢◌, ℕ, ◌+◌, ◌^◌, ◌<◌, ◌≤◌, ◌++◌, ◌↔◌, [], ◌∷◌, length, All, AllPairs, Contains, IfOk, OnErr, slice_get, Some, IfSome, IsTrue};
ghost use Rattle.year_system.specs.Code.{IsCode, code_of};
ghost use Rattle.year_system.specs.System.{Fits, IsSystem};

use crate::codes::{config_at, index_of};
use crate::system::YearSystem;
use plant_data::{Config, Same};
use std::alloc::Global;
use std::marker::Model;
use wasp_fixed::OutOfMemory;

/// The greatest number of configurations of a system, and so the distance of two systems' codes.
const CONFIGS: u64 = 1 << 50;

/// The systems of a run, at most 2,048, no two of them the same. A system's number is its place, counted
/// from 0. Contracts see the list of the systems.
#[derive(Debug, Drop)]
pub struct Book {
    systems: Vec<YearSystem>,
}

impl Model for Book {
    ghost use Rattle.std.specs.Prelude.{List, length, ◌≤◌, AllPairs, All, ◌≢◌};
    ghost use Rattle.year_system.specs.System.{System, IsSystem};

    ghost Value = { List System };

    ghost view = { λ b. b.systems.items };

    ghost invariant = { λ b. (length b.systems.items ≤ 2048) × AllPairs (λ s t. s ≢ t) b.systems.items × All IsSystem b.systems.items };
}

impl Book {
    /// A book with no system. It takes no memory.
    pub fn new(alloc: Global) -> Book
        ensures { result ≡ [] }
    {
        Book {
            systems: Vec::new(alloc),
        }
    }

    /// The number of systems.
    pub fn len(&self) -> u64
        ensures value { result ≡ length self.now }
        ensures small { result ≤ 2048 }
        ensures valid { All IsSystem self.now }
        ensures apart { AllPairs (λ s t. s ≢ t) self.now }
    {
        self.systems.len() as u64
    }

    /// Whether there is no system.
    pub fn is_empty(&self) -> bool
        ensures { IsTrue result ↔ (self.now ≡ []) }
    {
        self.systems.is_empty()
    }

    /// The system with a number.
    pub fn get(&self, id: u64) -> &YearSystem
        requires { id < length self.now }
        ensures value { slice_get self.now id ≡ Some result.now }
        ensures valid { IsSystem result.now }
    {
        &self.systems[id as usize]
    }

    /// The number of a system, which is added last where the book has no same one.
    pub fn intern(&mut self, system: YearSystem) -> Result<u64, OutOfMemory>
        requires { length self.old < 2048 }

        // No other number has this system, so equal systems have one number and unequal ones two.
        ensures number { IfOk result (λ id. (k : ℕ) → (slice_get self.new k ≡ Some system) ↔ (k ≡ id)) }
        ensures found { IfOk result (λ id. id < length self.old → self.new ≡ self.old) }
        ensures added { IfOk result (λ id. length self.old ≤ id → self.new ≡ self.old ++ system ∷ []) }
        ensures err { OnErr result (self.new ≡ self.old) }

        // A system that the book has takes no memory.
        ensures err_only_if_new { OnErr result (Contains self.old system → ⊥) }
    {
        // Its reading tells the proof that the system is one, as each in the book.
        let _step = system.step();
        for id in 0..self.systems.len() {
            if self.systems[id].same(&system) {
                return Ok(id as u64);
            }
        }
        let id = self.systems.len() as u64;
        self.systems.push(system)?;
        Ok(id)
    }

    /// The code of a key, a system's number with a configuration: `id * 2^50 + index + 1`.
    pub fn code(&self, id: u64, config: &Config) -> u64
        requires within { id < length self.now }
        requires fits { IfSome (slice_get self.now id) (λ s. Fits s config.now) }
        ensures value { IfSome (slice_get self.now id) (λ s. result ≡ code_of id s config.now) }
        ensures some { 1 ≤ result }
        ensures small { result ≤ 2 ^ 61 }
        ensures valid { IsCode self.now result }

        // No other key has this code.
        ensures only { (c : IsCode self.now result) → (c.id ≡ id) × (c.counts ≡ config.now) }
    {
        // Its reading tells the proof that the book has at most 2,048 systems.
        let _systems = &self.systems;
        let system = self.get(id);
        id * CONFIGS + index_of(system, config) + 1
    }

    /// The key of a code: the system's number and the configuration that `code` was given.
    pub fn decode(&self, code: u64) -> (u64, Config)
        requires { IsCode self.now code }
        ensures key { (c : IsCode self.now code) → (result.0 ≡ c.id) × (result.1 ≡ c.counts) }
        ensures within { result.0 < length self.now }
        ensures fits { IfSome (slice_get self.now result.0) (λ s. Fits s result.1) }
    {
        // Its reading tells the proof that the book has at most 2,048 systems.
        let _systems = &self.systems;
        let id = (code - 1) / CONFIGS;
        let system = self.get(id);
        let config = config_at(system, (code - 1) % CONFIGS);
        (id, config)
    }
}
