//! Engines are made ready for systems.
ghost use Rattle.std.specs.Prelude.{◌≡◌, ◌<◌, ◌≤◌, All, OnOk, length, map, max};
ghost use Rattle.sim_engine.specs.Engine.{widened};
ghost use Rattle.row_shelf.specs.Rooms.{AreWidened, IsRoomy, greatest_of};
ghost use Rattle.year_system.specs.System.{cells, unit_limit};

use sim_engine::SimEngine;
use wasp_fixed::OutOfMemory;
use year_system::Book;

/// The cells and the thermal units that the largest of the systems with these numbers take.
pub(crate) fn room_for(book: &Book, ids: &[u64]) -> (usize, usize)
    requires within { All (λ id. id < length book.now) ids.now }
    ensures cells { result.0 ≡ greatest_of cells book.now 0 ids.now }
    ensures units { result.1 ≡ greatest_of unit_limit book.now 0 ids.now }
    ensures few_cells { result.0 ≤ 65536 }
    ensures few_units { result.1 ≤ 128 }
{
    let mut cells = 0;
    let mut units = 0;
    for k in 0..ids.len() {
        let system = book.get(ids[k]);
        cells = larger(cells, system.cells());
        units = larger(units, system.unit_limit());
    }
    (cells, units)
}

/// The larger of two numbers.
fn larger(one: usize, other: usize) -> usize
    ensures { result ≡ max one other }
{
    one.max(other)
}

/// Makes each engine ready.
#[tactic(auto, using(crate::proofs::RoomSteps::are_same))]
pub(crate) fn make_ready<E: SimEngine>(
    engines: &mut [E],
    cells: usize,
    units: usize,
) -> Result<(), OutOfMemory>
    requires cells { cells ≤ 65536 }
    requires units { units ≤ 128 }
    ensures ready { OnOk result (All (λ e. IsRoomy cells units (E.room e)) engines.new) }
    ensures rooms { OnOk result (map E.room engines.new ≡ map (λ r. widened r cells units) (map E.room engines.old)) }
    ensures widened { AreWidened cells units (map E.room engines.old) (map E.room engines.new) }
    ensures work { map E.work engines.new ≡ map E.work engines.old }
{
    let Some((first, rest)) = engines.split_first_mut() else {
        return Ok(());
    };
    first.ready(cells, units)?;
    make_ready(rest, cells, units)
}
