//! The slots at the start.
ghost use Rattle.std.specs.Prelude.{◌≡◌, ◌≢◌, ℕ, ◌+◌, ◌%◌, ◌<◌, ◌≤◌, ◌^◌, ◌∷◌, [], ◌++◌, IfOk, length, false, replicate};
ghost use Rattle.board_core.specs.declared.row.KeptRow.{KeptRow};
ghost use Rattle.board_core.specs.Lists.{IsIn, times};
ghost use Rattle.board_core.specs.Rows.{codes_of};
ghost use Rattle.board_core.specs.Start.{free_slots, LaysRow, LaysRows};
ghost use Rattle.board_core.specs.Laid.{IsLaid};

use crate::home::{home_of, slots_of};
use crate::row::KeptRow;
use crate::slot::Slot;
use std::alloc::Global;
use wasp_fixed::OutOfMemory;

/// As many free slots as there are.
fn free_slots(alloc: Global, bits: u64) -> Result<Vec<Slot>, OutOfMemory>
    requires { bits ≤ 24 }
    ensures { IfOk result (λ v. v.items ≡ free_slots bits) }
{
    let free = Slot {
        code: 0,
        filled: false,
        words: [0; 11],
    };
    Ok(vec![in alloc; free; slots_of(bits) as usize]?)
}

/// The codes of the rows, in their order.
pub fn codes_in(alloc: Global, kept: &[KeptRow]) -> Result<Vec<u64>, OutOfMemory>
    ensures { IfOk result (λ v. v.items ≡ codes_of kept.now) }
{
    let mut all = Vec::new(alloc);
    for row in kept {
        all.push(row.code)?;
    }
    Ok(all)
}

/// Places one more row, at the first free slot from its home.
fn lay_row(slots: &mut [Slot], bits: u64, due: &[KeptRow], before: &[KeptRow], row: &KeptRow)
    requires bits { (1 ≤ bits) × (bits ≤ 24) × (length due.now < 2 ^ bits) }
    requires codes { (r : KeptRow) → IsIn r due.now → r.code ≢ 0 }
    requires equal { (r q : KeptRow) → IsIn r due.now → IsIn q due.now → r.code ≡ q.code → r ≡ q }
    requires row { IsIn row.now due.now × (times row.now.code (codes_of before.now) ≡ 0) }
    requires laid { IsLaid bits due.now (codes_of before.now) slots.old }
    ensures laid { IsLaid bits due.now (codes_of (before.now ++ row.now ∷ [])) slots.new }
    ensures placed { LaysRow bits slots.old row.now slots.new }
{
    let home = home_of(bits, row.code);
    let count = slots_of(bits);
    for i in 0..count {
        let slot = ((home + i) % count) as usize;
        if slots[slot].code == 0 {
            slots[slot] = Slot {
                code: row.code,
                filled: true,
                words: row.words.to_array(),
            };
            return;
        }
    }
    unreachable!()
}

/// Places the rows in their order.
fn lay_rows(slots: &mut [Slot], bits: u64, kept: &[KeptRow], due: &[KeptRow])
    requires bits { (1 ≤ bits) × (bits ≤ 24) × (length due.now < 2 ^ bits) }
    requires codes { (r : KeptRow) → IsIn r due.now → r.code ≢ 0 }
    requires equal { (r q : KeptRow) → IsIn r due.now → IsIn q due.now → r.code ≡ q.code → r ≡ q }
    requires once { (x : ℕ) → times x (codes_of kept.now) ≤ 1 }
    requires due { (r : KeptRow) → IsIn r kept.now → IsIn r due.now }
    requires free { slots.old ≡ free_slots bits }
    ensures laid { IsLaid bits due.now (codes_of kept.now) slots.new }
    ensures placed { LaysRows bits slots.old kept.now slots.new }
{
    for k in 0..kept.len() {
        lay_row(slots, bits, due, &kept[..k], &kept[k]);
    }
}

/// The slots at the start.
pub(crate) fn first_slots(
    alloc: Global,
    bits: u64,
    kept: &[KeptRow],
    due: &[KeptRow],
) -> Result<Vec<Slot>, OutOfMemory>
    requires bits { (1 ≤ bits) × (bits ≤ 24) × (length due.now < 2 ^ bits) }
    requires codes { (r : KeptRow) → IsIn r due.now → r.code ≢ 0 }
    requires equal { (r q : KeptRow) → IsIn r due.now → IsIn q due.now → r.code ≡ q.code → r ≡ q }
    requires once { (x : ℕ) → times x (codes_of kept.now) ≤ 1 }
    requires due { (r : KeptRow) → IsIn r kept.now → IsIn r due.now }
    ensures laid { IfOk result (λ v. IsLaid bits due.now (codes_of kept.now) v.items) }
    ensures placed { IfOk result (λ v. LaysRows bits (free_slots bits) kept.now v.items) }
{
    let mut slots = free_slots(alloc, bits)?;
    lay_rows(slots.as_mut_slice(), bits, kept, due);
    Ok(slots)
}
