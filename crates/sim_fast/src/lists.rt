//! A list of units from its beginning to its end.
ghost use Rattle.std.specs.Prelude.{◌≡◌, ◌+◌, ◌≤◌, All, length};
ghost use Rattle.wasp_fixed.specs.Curves.{cell};
ghost use Rattle.sim_fast.specs.declared.turn.TheConstants.{MAX_UNITS};
ghost use Rattle.sim_fast.specs.Turns.{IsTurn, StandsAt};

use crate::shelf::CurveShelf;
use crate::turn::Turn;
use crate::workbench::{Workbench, load_rest};

/// So many units apart are the beginnings that are kept.
const STRIDE: usize = 8;

/// Makes a bench stand behind all units of a list, on the load of a shelf.
pub fn run_list(shelf: &mut CurveShelf, turns: &[Turn], bench: &mut Workbench)
    requires turns { All IsTurn turns.now }
    requires few { length turns.now ≤ MAX_UNITS }
    requires room { shelf.old.room ≡ bench.old.room }
    requires places { MAX_UNITS ≤ bench.old.places }
    ensures stands { StandsAt (cell shelf.old.load) turns.now (length turns.now) bench.new }
    ensures shelf { shelf.new ≡ shelf.old }
    ensures room { bench.new.room ≡ bench.old.room }
    ensures places { bench.new.places ≡ bench.old.places }
{
    let mut done = shelf.resume(turns, bench);
    while done + STRIDE < turns.len() {
        let next = (done / STRIDE + 1) * STRIDE;
        let _within = bench.len();
        load_rest(bench, turns, done, next);
        shelf.keep(turns, next, bench);
        done = next;
    }
    let _within = bench.len();
    load_rest(bench, turns, done, turns.len());
}
