//! The rows of a board that has ended.
ghost use Rattle.std.specs.Prelude.{◌≡◌, ℕ, ◌+◌, ◌*◌, ◌^◌, ◌<◌, ◌≤◌, ◌++◌, OnOk, OnErr, slice_index};
ghost use Rattle.std.specs.Slots.{slots_items, slots_len, IsFull};
ghost use Rattle.sim_board.specs.Standing.{base};
ghost use Rattle.sim_board.specs.Collected.{slot_row, rows_below};

use atomic_table::Closed;
use board_core::{KeptRow, Words, slots_of};
use std::alloc::Global;
use wasp_fixed::OutOfMemory;

/// Appends the row of each slot that has a code.
pub(crate) fn read_rows(
    closed: &Closed<(), Global>,
    bits: u64,
    into: &mut Vec<KeptRow>,
) -> Result<(), OutOfMemory>
    requires full { IsFull closed.now.words × (slots_len closed.now.words ≡ base (2 ^ bits)) × (bits ≤ 24) }
    ensures ok { OnOk result (into.new.items ≡ into.old.items ++ rows_below (slots_items closed.now.words) (2 ^ bits)) }
    ensures err { OnErr result (into.new.items ≡ into.old.items) }
{
    let before = into.len();
    for s in 0..slots_of(bits) {
        if word_of(closed, 13 * s + 1) != 0 && into.push(row_in(closed, s)).is_err() {
            into.truncate(before);
            return Err(OutOfMemory);
        }
    }
    Ok(())
}

/// A word of the table.
fn word_of(closed: &Closed<(), Global>, i: u64) -> u64
    requires { IsFull closed.now.words × (i < slots_len closed.now.words) }
    ensures { result ≡ slice_index (slots_items closed.now.words) i }
{
    closed.word(i as usize)
}

/// The row of a slot.
fn row_in(closed: &Closed<(), Global>, s: u64) -> KeptRow
    requires { IsFull closed.now.words × (13 * s + 14 ≤ slots_len closed.now.words) × (s < 2 ^ 25) }
    ensures { result ≡ slot_row (slots_items closed.now.words) s }
{
    let from = 13 * s + 1 + 2;
    KeptRow {
        code: word_of(closed, 13 * s + 1),
        words: Words {
            w0: word_of(closed, from + 0),
            w1: word_of(closed, from + 1),
            w2: word_of(closed, from + 2),
            w3: word_of(closed, from + 3),
            w4: word_of(closed, from + 4),
            w5: word_of(closed, from + 5),
            w6: word_of(closed, from + 6),
            w7: word_of(closed, from + 7),
            w8: word_of(closed, from + 8),
            w9: word_of(closed, from + 9),
            w10: word_of(closed, from + 10),
        },
    }
}
