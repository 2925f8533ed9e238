//! What the plants, candidates and groups of a planned year generate.
ghost use Rattle.std.specs.Prelude.{◌≡◌, ℕ, ◌+◌, ◌-◌, ◌<◌, ◌≤◌, ◌++◌, [], ◌∷◌, All, List, length, IfOk, OnOk, slice_index};
ghost use Rattle.std.specs.List.{filter_map, range_with_len};
ghost use Rattle.checked_deck.specs.Systems as systems;
ghost use Rattle.deck_check.specs.Readings as says;
ghost use Rattle.deck_lines.specs.Deck.{body_of};
ghost use Rattle.report_text.specs.ReadBack.{IsPrintableGeneration};
ghost use Rattle.sim_engine.specs.Engine.{counted};
ghost use Rattle.sim_engine.specs.Generation.{generations};
ghost use Rattle.case_study.specs.Case.{generation_at, generation_of, generations_of, generator_at, standing_at};
ghost use Rattle.case_study.specs.Inner.{HaveDetailed, OnlyDetails};
ghost use Rattle.case_study.specs.Studies.{IsOn};
ghost use Rattle.year_system.specs.System.{Fits};

use crate::study::Study;
use checked_deck::{PlantId, TypedDeck};
use plant_data::{Config, Listed};
use report_text::{Generation, Generations};
use row_shelf::Shelf;
use sim_engine::SimEngine;
use std::alloc::Global;
use wasp_fixed::OutOfMemory;
use year_system::YearSystem;

/// The plant, candidate or group at a place of a system, with its standing units or projects.
fn generator(system: &YearSystem, config: &Config, k: usize) -> (PlantId, u64)
    requires fits { Fits system.now config.now }
    requires within { k < length system.now.existing + length system.now.thermal + length system.now.groups }
    ensures id { result.0 ≡ generator_at system.now k }
    ensures standing { result.1 ≡ standing_at system.now config.now k }
{
    let existing = system.existing();
    let thermal = system.thermal();
    if k < existing.len() {
        return (PlantId::Existing(existing[k].number), existing[k].units);
    }
    let candidate = k - existing.len();
    if candidate < thermal.len() {
        return (
            PlantId::Thermal(thermal[candidate].number - 40),
            config.get(candidate),
        );
    }
    let group = &system.groups()[candidate - thermal.len()];
    (
        PlantId::Hydro(group.number),
        group.existing + config.get(candidate),
    )
}

/// Adds what one generates, by its name, where anything of it stands.
fn push_generation(
    typed: &TypedDeck,
    id: PlantId,
    standing: u64,
    energy: u64,
    generations: &mut Vec<Generation>,
) -> Result<(), OutOfMemory>
    ensures pushed { OnOk result (generations.new.items
        ≡ generations.old.items ++ filter_map (λ (k : ℕ). generation_of (body_of typed.now) id standing energy)
        (0 ∷ [])) }
    ensures printable { OnOk result (All IsPrintableGeneration generations.old.items
        → All IsPrintableGeneration generations.new.items) }
{
    if standing == 0 {
        return Ok(());
    }
    match typed.plant_name(id) {
        Some(name) => {
            // Its reading tells the proof that the bytes are those of a name.
            let _bytes = name.as_bytes();
            generations.push(Generation { id, name, energy })?;
            Ok(())
        }
        None => Ok(()),
    }
}

/// The generations by their energies.
fn name_generations(
    alloc: Global,
    typed: &TypedDeck,
    system: &YearSystem,
    config: &Config,
    energies: &[u64],
) -> Result<Generations, OutOfMemory>
    requires fits { Fits system.now config.now }
    requires places { length energies.now
        ≡ length system.now.existing + length system.now.thermal + length system.now.groups }
    ensures value { IfOk result (λ gs. gs
        ≡ filter_map (generation_at (body_of typed.now) system.now config.now energies.now)
        (range_with_len 0 (length energies.now))) }
    ensures printable { IfOk result (λ gs. All IsPrintableGeneration gs) }
{
    let mut generations = Vec::new(alloc);
    for k in 0..energies.len() {
        let (id, standing) = generator(system, config, k);
        push_generation(typed, id, standing, energies[k], &mut generations)?;
    }
    Ok(Listed::new(generations))
}

/// What a configuration generates in the year of a place, counted from 0, by a run of an engine.
pub(crate) fn year_generations<E: SimEngine>(
    alloc: Global,
    study: &Study,
    shelf: &Shelf,
    place: usize,
    config: &Config,
    engine: &mut E,
) -> Result<Generations, OutOfMemory>
    requires on { IsOn shelf.now study.now }
    requires place { place < says.years (body_of study.now.deck) }
    requires fits { Fits (systems.system (body_of study.now.deck) (place + 1)) config.now }
    ensures value { IfOk result (λ gs. gs ≡ generations_of (body_of study.now.deck) (place + 1) config.now) }
    ensures printable { IfOk result (λ gs. All IsPrintableGeneration gs) }
    ensures detailed { OnOk result ((E.work engine.new).detailed ≡ counted (E.work engine.old).detailed) }
    ensures work { OnlyDetails (E.work engine.old) (E.work engine.new) }
    ensures gone { HaveDetailed (E.work engine.old ∷ []) (E.work engine.new ∷ []) }
{
    let system = shelf.system(study.ids()[place]);
    let count = system.existing().len() + system.thermal().len() + system.groups().len();
    let mut energies = vec![in alloc; 0u64; count]?;
    engine.ready(system.cells(), system.unit_limit())?;
    engine.detail(system, config, energies.as_mut_slice());
    name_generations(alloc, study.typed(), system, config, &energies)
}
