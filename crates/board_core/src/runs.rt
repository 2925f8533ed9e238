//! Lists of events.
ghost use Rattle.std.specs.Prelude.{◌≡◌, ◌≢◌, ℕ, ◌<◌, OnOk, OnErr, length, take, true, None};
ghost use Rattle.board_core.specs.Rows.{due_word};
ghost use Rattle.board_core.specs.Machine.{run, slot_at, actor_at, enabled, answer, IsSoundMachine};
ghost use Rattle.board_core.specs.declared.event.Event.TheVariants.{ReadWord};
ghost use Rattle.board_core.specs.declared.event.Answer.TheVariants.{Seen};

use crate::event::Event;
use crate::state::BoardState;
use wasp_fixed::OutOfMemory;

/// Takes the events in order. After want of memory the state is that of the events taken.
///
/// After every list of events the state is sound; a code that stands in a slot, and all that stands in a filled
/// slot, stands there for good; `ReadWord` answers the due word of the slot's code, for every actor; and where an
/// actor has the whole share and nothing in hand, every placed code is filled.
pub fn run_events(state: &mut BoardState, events: &[Event]) -> Result<(), OutOfMemory>
    ensures state { OnOk result (state.new ≡ run state.old events.now) }
    ensures err { OnErr result ((n : ℕ) × (n < length events.now) × (state.new ≡ run state.old (take n events.now))) }
    ensures sound { IsSoundMachine state.new }
    ensures stands { (s : ℕ) → (slot_at state.old s).code ≢ 0 → (slot_at state.new s).code ≡ (slot_at state.old s).code }
    ensures filled { (s : ℕ) → (slot_at state.old s).filled ≡ true → slot_at state.new s ≡ slot_at state.old s }
    ensures reads { (k s at : ℕ) → enabled state.new (ReadWord k s at) ≡ true → answer state.new (ReadWord k s at) ≡ Seen (due_word state.old.rows (slot_at state.new s).code at) }
    ensures whole { (k s : ℕ) → (actor_at state.new k).share ≡ 64 → (actor_at state.new k).hand ≡ None → (slot_at state.new s).code ≢ 0 → (slot_at state.new s).filled ≡ true }
    ensures fixed { (state.new.bits ≡ state.old.bits) × (state.new.rows ≡ state.old.rows) × (state.new.start ≡ state.old.start) }
{
    state.is_sound();
    for event in events {
        state.step(event)?;
    }
    Ok(())
}
