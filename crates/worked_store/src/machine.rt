//! Worked rows: the store as a machine.
ghost use Rattle.std.specs.Prelude.{◌≡◌, ℕ, IfOk};
ghost use Rattle.board_core.specs.Trial.{same_row};

use board_core::{Answer, BoardState, Event, KeptRow, Words, home_of, run_events, slots_of};
use std::alloc::Global;
use std::test::Fail;
use wasp_fixed::OutOfMemory;

/// The row of a code is the code eleven times.
fn row(code: u64) -> KeptRow
    ensures { result ≡ same_row code }
{
    KeptRow {
        code,
        words: Words {
            w0: code,
            w1: code,
            w2: code,
            w3: code,
            w4: code,
            w5: code,
            w6: code,
            w7: code,
            w8: code,
            w9: code,
            w10: code,
        },
    }
}

/// A store over the codes 1 and 2, with nothing kept.
fn two_codes(alloc: Global) -> Result<BoardState, OutOfMemory> {
    BoardState::start(alloc, 3, &[], &[row(1), row(2)])
}

/// A store over the codes 1 and 2, of which 2 is kept.
fn one_kept(alloc: Global) -> Result<BoardState, OutOfMemory> {
    BoardState::start(alloc, 3, &[row(2)], &[row(1), row(2)])
}

fn is_seen(answer: Answer, word: u64) -> bool {
    match answer {
        Answer::Seen(n) => n == word,
        _ => false,
    }
}

fn is_moved(answer: Answer) -> bool {
    match answer {
        Answer::Moved => true,
        _ => false,
    }
}

fn is_not_enabled(answer: Answer) -> bool {
    match answer {
        Answer::NotEnabled => true,
        _ => false,
    }
}

#[test]
fn homes_among_eight_slots(rt: HostRuntime) -> Result<(), Fail> {
    assert!(rt; slots_of(3) == 8);
    assert!(rt; home_of(3, 1) == 4);
    assert!(rt; home_of(3, 2) == 1);
    Ok(())
}

#[test]
fn publish_after_ten_words_is_not_enabled(rt: HostRuntime) -> Result<(), Fail> {
    let mut state = two_codes(rt.alloc()).expect(&rt, "memory");
    let place = Event::PlaceCode {
        actor: 0,
        slot: 4,
        code: 1,
    };
    assert!(rt; is_seen(state.step(&place).expect(&rt, "memory"), 0));
    for at in 0..10u64 {
        let write = Event::WriteWord {
            actor: 0,
            slot: 4,
            at,
        };
        assert!(rt; is_moved(state.step(&write).expect(&rt, "memory")));
    }
    let publish = Event::Publish { actor: 0, slot: 4 };
    assert!(rt; is_not_enabled(state.step(&publish).expect(&rt, "memory")));
    let last = Event::WriteWord {
        actor: 0,
        slot: 4,
        at: 10,
    };
    let read = Event::ReadWord {
        actor: 0,
        slot: 4,
        at: 10,
    };
    run_events(&mut state, &[last, publish]).expect(&rt, "memory");
    assert!(rt; is_seen(state.step(&read).expect(&rt, "memory"), 1));
    Ok(())
}

#[test]
fn a_kept_row_is_read_by_all(rt: HostRuntime) -> Result<(), Fail> {
    let mut state = one_kept(rt.alloc()).expect(&rt, "memory");
    let split = Event::Split { actor: 0, part: 1 };
    let look = Event::LookCode { actor: 1, slot: 1 };
    let state_word = Event::LookState { actor: 1, slot: 1 };
    let read = Event::ReadWord {
        actor: 1,
        slot: 1,
        at: 0,
    };
    assert!(rt; is_not_enabled(state.step(&read).expect(&rt, "memory")));
    run_events(&mut state, &[split, look, state_word]).expect(&rt, "memory");
    assert!(rt; is_seen(state.step(&read).expect(&rt, "memory"), 2));
    let join = Event::Join { actor: 0, other: 1 };
    assert!(rt; is_moved(state.step(&join).expect(&rt, "memory")));
    assert!(rt; is_not_enabled(state.step(&join).expect(&rt, "memory")));
    Ok(())
}
