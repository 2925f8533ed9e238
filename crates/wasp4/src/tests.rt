use crate::{CommandWords, Status, run};
use checked_deck::check;
use deck_lines::{Deck, Line, Mode, read_line};
use plant_data::Config;
use sim_engine::{PlainEngine, SimEngine, TapeEngine};
use sim_sweep::Tally;
use std::alloc::Global;
use std::test::Fail;
use std::thread::Threads;
use wasp_io::{MemSink, MemSource};
use year_system::YearSystem;

/// Three gas units of 100 MW against a flat load of 100 MW, in one year.
const DECK: &str =
    "YEARS 1\nPERIODS 1\nRATE 1000 1000\nENS 100000\nSHAPE 1 0 10000 10000 10000\nFUEL 1 500 0\nTHERMAL 1 GAS 3 100 100 2000 2000 1 0 0 1000 0 500 0 0 20\nLOAD 1 100 1\nMARGIN 1 1 0 100000\nLOLP 1 1 1000000000 1000000000\nTUNNEL 1 1 0 2\n";

const CASE: &str =
    "CASE 1\nCHOSEN 1 2\nEDGE 1 +\nTERMS 1 100000000 86363636 0 8268808 0 8352332\nRISK 1 10000000 10000000 8760\nGEN 1 T1 GAS 867240\nTOTAL 30257504\nCOME 1 0 835233227\nCOME 1 1 97858603\nCOME 1 2 30257504\n";

/// How a source and a sink in memory go.
#[derive(Clone, Copy)]
struct Edge<'a> {
    chunk: usize,
    room: usize,
    failing_takes: &'a [u64],
    failing_puts: &'a [u64],
}

const SOUND: Edge = Edge {
    chunk: 64,
    room: 2000,
    failing_takes: &[],
    failing_puts: &[],
};

/// How a run of some words over some bytes ends, what it writes, and how many rows were filled.
fn answer<E: SimEngine, R: Threads + Sync>(
    rt: &R,
    alloc: Global,
    words: &CommandWords,
    bytes: &[u8],
    edge: &Edge,
    engines: &mut [E],
) -> Result<(Status, Vec<u8>, u64), Fail> {
    let mut source = MemSource::new(alloc, bytes, edge.chunk.max(1), edge.failing_takes)?;
    let mut sink = MemSink::new(alloc, edge.room, 8, edge.failing_puts)?;
    let mut tally = Tally::new();
    let status = run(
        rt,
        alloc,
        words,
        engines,
        &mut source,
        &mut sink,
        &mut tally,
    );
    Ok((status, sink.bytes().to_vec(alloc)?, tally.filled()))
}

/// Words of a command line.
fn words(alloc: Global, list: &[&str]) -> Result<CommandWords, Fail> {
    let mut words = CommandWords::new(alloc);
    for word in list {
        words.push(word)?;
    }
    Ok(words)
}

/// How a script of `plan` ends and what it writes, given the deck and the lines behind it.
fn plan<R: Threads + Sync>(
    rt: &R,
    alloc: Global,
    rest: &str,
    edge: &Edge,
) -> Result<(Status, Vec<u8>), Fail> {
    let script = format!(in alloc; "{DECK}{rest}")?;
    let words = words(alloc, &["plan"])?;
    let mut engines = [PlainEngine::new(alloc)];
    let (status, text, _) = answer(rt, alloc, &words, script.as_bytes(), edge, &mut engines)?;
    Ok((status, text))
}

/// The system of the year of the deck.
fn system(alloc: Global) -> Result<YearSystem, Fail> {
    let mut deck = Deck::new(alloc);
    for line in DECK.lines() {
        if let Line::Set(statement) = read_line(alloc, Mode::Plan, line.as_bytes())? {
            deck.set(statement)?;
        }
    }
    let typed = check(&deck)?;
    // Its reading tells the proof that there is a year.
    let _years = typed.years();
    Ok(typed.system(alloc, 1)?)
}

#[test]
fn three_gas_units_are_planned_in_any_pieces(rt: HostRuntime) -> Result<(), Fail> {
    let report = format!(in rt.alloc(); "PLAN 1\n{CASE}KEYS 3\n")?;
    for chunk in 1..4usize {
        let edge = Edge { chunk, ..SOUND };
        let (status, text) = plan(&rt, rt.alloc(), "PLAN\nEND\n", &edge)?;
        assert_eq!(rt; status, Status::Done);
        assert_eq!(rt; text.as_slice(), report.as_bytes());
    }
    Ok(())
}

/// The text of a PLAN is put before a byte behind its line is needed.
#[test]
fn a_source_that_fails_behind_a_plan_leaves_its_report(rt: HostRuntime) -> Result<(), Fail> {
    let rest = "PLAN\nPLAN\nEND\n";
    let report = format!(in rt.alloc(); "PLAN 1\n{CASE}")?;
    let edge = Edge {
        chunk: 1,
        failing_takes: &[227],
        ..SOUND
    };
    let (status, text) = plan(&rt, rt.alloc(), rest, &edge)?;
    assert_eq!(rt; status, Status::ReadFault);
    assert_eq!(rt; text.len(), 0);
    let edge = Edge {
        chunk: 1,
        failing_takes: &[228],
        ..SOUND
    };
    let (status, text) = plan(&rt, rt.alloc(), rest, &edge)?;
    assert_eq!(rt; status, Status::ReadFault);
    assert_eq!(rt; text.as_slice(), report.as_bytes());
    Ok(())
}

#[test]
fn a_sink_that_fails_at_any_put_has_a_front(rt: HostRuntime) -> Result<(), Fail> {
    let report = format!(in rt.alloc(); "PLAN 1\n{CASE}KEYS 3\n")?;
    // 201 bytes of the report and 7 of the closing, 8 at a time.
    for put in 1..28u64 {
        let failing = [put];
        let edge = Edge {
            failing_puts: &failing,
            ..SOUND
        };
        let (status, text) = plan(&rt, rt.alloc(), "PLAN\nEND\n", &edge)?;
        assert_eq!(rt; status, Status::WriteFault);
        assert!(rt; report.as_bytes().starts_with(&text));
    }
    Ok(())
}

#[test]
fn a_sink_without_room_is_a_write_fault(rt: HostRuntime) -> Result<(), Fail> {
    let edge = Edge { room: 0, ..SOUND };
    let (status, text) = plan(&rt, rt.alloc(), "PLAN\nEND\n", &edge)?;
    assert_eq!(rt; status, Status::WriteFault);
    assert_eq!(rt; text.len(), 0);
    Ok(())
}

/// An engine that tells its runs tells each key once, whatever stands between the PLAN lines.
#[test]
fn each_key_is_simulated_once(rt: HostRuntime) -> Result<(), Fail> {
    let script = format!(in rt.alloc(); "{DECK}PLAN\nPLAN\nTUNNEL 1 1 0 3\nPLAN\nEND\n")?;
    let words = words(rt.alloc(), &["plan"])?;
    let mut engines = [telling(rt.alloc())?];
    let (status, _, _) = answer(
        &rt,
        rt.alloc(),
        &words,
        script.as_bytes(),
        &SOUND,
        &mut engines,
    )?;
    assert_eq!(rt; status, Status::Done);
    let Some(runs) = engines[0].runs() else {
        return Err(Fail::new("no runs are told"));
    };
    assert_eq!(rt; runs.len(), 4);
    for count in 0..4usize {
        assert_eq!(rt; runs[count].system, 0);
        let mut config = Config::zero(1);
        config.set(0, count as u64);
        assert!(rt; runs[count].config == config);
    }
    Ok(())
}

/// An engine that tells its runs of the system of the deck.
fn telling(alloc: Global) -> Result<TapeEngine, Fail> {
    let mut systems = Vec::new(alloc);
    systems.push(system(alloc)?)?;
    Ok(TapeEngine::new(alloc, systems, 10)?)
}

/// How many runs it tells.
fn told(engine: &TapeEngine) -> usize {
    match engine.runs() {
        Some(runs) => runs.len(),
        None => 1000,
    }
}

/// Two of three engines are asked for: they simulate each key once between them, and the third does nothing.
#[test]
fn two_of_three_engines_work(rt: HostRuntime) -> Result<(), Fail> {
    let alloc = rt.alloc();
    let script = format!(in alloc; "{DECK}PLAN\nEND\n")?;
    let words = words(alloc, &["plan", "--workers", "2"])?;
    let mut engines = [telling(alloc)?, telling(alloc)?, telling(alloc)?];
    let (status, text, filled) = answer(
        &rt,
        rt.alloc(),
        &words,
        script.as_bytes(),
        &SOUND,
        &mut engines,
    )?;
    let report = format!(in alloc; "PLAN 1\n{CASE}KEYS 3\n")?;
    assert_eq!(rt; status, Status::Done);
    assert_eq!(rt; text.as_slice(), report.as_bytes());
    let both = told(&engines[0]).saturating_add(told(&engines[1]));
    assert_eq!(rt; (both, told(&engines[2]), filled), (3, 0, 3));
    Ok(())
}

#[test]
fn other_words_get_the_usage_line(rt: HostRuntime) -> Result<(), Fail> {
    let usage =
        b"USAGE plan [--workers N] | check | trial SEED YEARS CANDIDATES | search | best K | hours N\n".as_slice();
    let words = CommandWords::new(rt.alloc());
    let mut engines = [PlainEngine::new(rt.alloc())];
    let (status, text, _) = answer(&rt, rt.alloc(), &words, b"", &SOUND, &mut engines)?;
    assert_eq!(rt; status, Status::BadWords);
    assert_eq!(rt; text.as_slice(), usage);
    Ok(())
}

/// Where no call is to fail and the sink has room for the text, neither fault can come.
#[test]
fn sure_edges_never_fail(rt: HostRuntime) -> Result<(), Fail> {
    let mut source = MemSource::new(rt.alloc(), b"END\n", 4, &[])?;
    let mut sink = MemSink::new(rt.alloc(), 7, 8, &[])?;
    let mut words = CommandWords::new(rt.alloc());
    words.push("plan")?;
    let mut engines = [PlainEngine::new(rt.alloc())];
    let mut tally = Tally::new();
    let status = run(
        &rt,
        rt.alloc(),
        &words,
        &mut engines,
        &mut source,
        &mut sink,
        &mut tally,
    );
    match status {
        Status::ReadFault | Status::WriteFault => unreachable!(),
        status => assert_eq!(rt; status, Status::Done),
    }
    Ok(())
}

/// What is written of the loads 1 and 3 MW into a sink with room for it, given the calls of the source that fail.
fn hours<R: Threads + Sync>(
    rt: &R,
    alloc: Global,
    failing_takes: &[u64],
) -> Result<(Status, Vec<u8>), Fail> {
    let words = words(alloc, &["hours", "2"])?;
    let edge = Edge {
        chunk: 2,
        failing_takes,
        ..SOUND
    };
    let mut engines = [PlainEngine::new(alloc)];
    let (status, text, _) = answer(rt, alloc, &words, b"1\n3\nEND\n", &edge, &mut engines)?;
    Ok((status, text))
}

#[test]
fn hourly_loads_get_a_shape_once_all_are_read(rt: HostRuntime) -> Result<(), Fail> {
    let text = b"PEAK 3\nSHAPE 1 0 10000 10000 0\nMWH 4\nERROR 166666667\n".as_slice();
    let (status, said) = hours(&rt, rt.alloc(), &[])?;
    assert_eq!(rt; status, Status::Done);
    assert_eq!(rt; said.as_slice(), text);
    let (status, said) = hours(&rt, rt.alloc(), &[4])?;
    assert_eq!(rt; status, Status::ReadFault);
    assert_eq!(rt; said.len(), 0);
    Ok(())
}
