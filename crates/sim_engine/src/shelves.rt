//! What the fast engine keeps from one run to the next, and what it works on.
ghost use Rattle.std.specs.Prelude.{◌≡◌, ◌+◌, ◌*◌, ◌^◌, ◌≤◌};

use crate::keyed_shelf::KeyedShelf;
use crate::laying::Laying;
use crate::plain::MAX_BLOCKS;
use sim_fast::{MAX_UNITS, Turn, Workbench};
use std::alloc::Global;
use wasp_fixed::OutOfMemory;

/// The greatest number of hydro conditions.
const CONDITIONS: usize = 5;

/// The places for twelve periods under each condition.
const PLACES: usize = 60;

/// The cells, four bytes each, that an engine takes at most: 64 MB.
const MAX_CELLS: usize = 1 << 24;

/// What the units of one kept beginning take, in cells: their blocks, their rates and what they cover.
const UNIT_CELLS: usize = 10 * MAX_UNITS;

/// The most beginnings that are kept of one load.
const MOST_KEPT: usize = 24;

/// A unit of no cells, which stands in a room before one is written there.
const NO_TURN: Turn = Turn {
    least: 0,
    full: 0,
    rate: 0,
};

/// The place of a period under a condition.
pub fn place_of(period: usize, condition: usize) -> usize {
    period.saturating_mul(CONDITIONS).saturating_add(condition)
}

/// How many beginnings are kept of each load, so that they stand within the memory of an engine beside its other
/// curves: one of each unit, four to work on, and the load of each place. No more than there are units.
fn count_kept(cells: usize, units: usize) -> usize
    requires cells { cells ≤ 65536 }
    requires units { units ≤ 128 }
    ensures within { (units + 64) * cells + result * (60 * (cells + 1280)) ≤ 2 ^ 24 }
{
    let rest = MAX_CELLS - (units + 4 + PLACES) * cells;
    (rest / (PLACES * (cells + UNIT_CELLS)))
        .min(MOST_KEPT)
        .min(units)
}

/// A shelf for each period and condition, and the rooms of one run.
#[derive(Drop)]
pub struct Shelves {
    /// What is kept of each period and condition, at its place.
    pub shelves: Vec<KeyedShelf>,
    /// The blocks of the configuration.
    pub laying: Laying,
    /// Its units in a period, in the order in which they are loaded.
    pub turns: Vec<Turn>,
    /// Where the units stand that are loaded onto the load of a shelf.
    pub workbench: Workbench,
}

impl Shelves {
    /// No shelf, which takes no memory.
    pub fn new(alloc: Global) -> Shelves {
        Shelves {
            shelves: Vec::new(alloc),
            laying: Laying::new(alloc),
            turns: Vec::new(alloc),
            workbench: Workbench::new(alloc),
        }
    }

    /// Shelves for so many cells and units. Errors: want of memory.
    pub fn with_room(alloc: Global, cells: usize, units: usize) -> Result<Shelves, OutOfMemory>
        requires cells { cells ≤ 65536 }
        requires units { units ≤ 128 }
    {
        let count = count_kept(cells, units);
        let mut shelves = Vec::new(alloc);
        for _ in 0..PLACES {
            shelves.push(KeyedShelf::with_room(alloc, cells, count)?)?;
        }
        Ok(Shelves {
            shelves,
            laying: Laying::with_room(alloc, MAX_BLOCKS)?,
            turns: vec![in alloc; NO_TURN; MAX_UNITS]?,
            workbench: Workbench::with_room(alloc, cells)?,
        })
    }

    /// Shelves for so many cells and units where anything is to be kept, else none. Errors: want of memory.
    pub fn where_kept(
        alloc: Global,
        keeps: bool,
        cells: usize,
        units: usize,
    ) -> Result<Shelves, OutOfMemory>
        requires cells { cells ≤ 65536 }
        requires units { units ≤ 128 }
    {
        if keeps {
            Shelves::with_room(alloc, cells, units)
        } else {
            Ok(Shelves::new(alloc))
        }
    }
}
