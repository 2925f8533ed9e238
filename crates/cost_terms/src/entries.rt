//! The accepted configurations of a case's years with their rows.
ghost use Rattle.std.specs.Prelude.{◌≡◌, ◌<◌, ◌≤◌, length, All, slice_index_or};
ghost use Rattle.cost_terms.specs.CostData.{IsEconomy};
ghost use Rattle.cost_terms.specs.Table.{IsTable, Rises};

use crate::economy::Economy;
use plant_data::{Config, Listed, Row};
use std::marker::Model;

/// An accepted configuration with what its simulation answered.
#[derive(Clone, Copy, Debug, PartialEq, Eq)]
pub struct Scored {
    /// The configuration.
    pub config: Config,
    /// Its row.
    pub row: Row,
}

/// The accepted configurations of a year, in rising order, which contracts see as their list.
#[derive(Debug, Drop)]
pub struct Layer {
    entries: Vec<Scored>,
}

impl Model for Layer {
    ghost use Rattle.std.specs.Prelude.{List};
    ghost use Rattle.cost_terms.specs.Table.{Rises};
    ghost use Rattle.cost_terms.specs.declared.entries.Scored.{Scored};

    ghost Value = { List Scored };

    ghost view = { λ l. l.entries.items };

    ghost invariant = { λ l. Rises l.entries.items };
}

impl Layer {
    /// The layer of these entries, whose configurations rise. It takes no memory.
    pub fn new(entries: Vec<Scored>) -> Layer
        requires { Rises entries.items }
        ensures { result ≡ entries.items }
    {
        Layer { entries }
    }

    /// The entries.
    pub fn entries(&self) -> &[Scored]
        ensures value { result.now ≡ self.now }
        ensures rises { Rises self.now }
    {
        self.entries.as_slice()
    }
}

/// An economy, and one layer for each of its years.
#[derive(Debug, Drop)]
pub struct CaseTable {
    economy: Economy,
    layers: Listed<Layer>,
}

impl Model for CaseTable {
    ghost use Rattle.cost_terms.specs.Table.{Table, IsTable};

    ghost Value = { Table };

    ghost view = { λ t. record { economy = t.economy; layers = t.layers } };

    ghost invariant = { λ t. IsTable (record { economy = t.economy; layers = t.layers }) };
}

impl CaseTable {
    /// The table of an economy and the layers of its years, from year 1 on: each configuration is within
    /// the greatest counts, each row within its bounds. It takes no memory.
    pub fn new(economy: Economy, layers: Listed<Layer>) -> CaseTable
        requires { IsTable (record { economy = economy; layers = layers }) }
        ensures { result ≡ record { economy = economy; layers = layers } }
    {
        CaseTable { economy, layers }
    }

    /// The economy.
    pub fn economy(&self) -> &Economy
        ensures value { result.now ≡ self.now.economy }
        ensures valid { IsTable self.now }
    {
        &self.economy
    }

    /// The layer of each year, from year 1 on.
    pub fn layers(&self) -> &[Layer]
        ensures value { result.now ≡ self.now.layers }
        ensures valid { IsTable self.now }
    {
        self.layers.as_slice()
    }
}
