//! What one worker does.
ghost use Rattle.std.specs.Prelude.{◌≡◌, ℕ, ◌+◌, ◌-◌, ◌^◌, ◌<◌, ◌≤◌, [], ◌∷◌, All, Some, length};
ghost use Rattle.board_core.specs.declared.actor.Hand.{Hand};
ghost use Rattle.board_core.specs.Rows.{words_of};
ghost use Rattle.board_core.specs.Events.{publishes};
ghost use Rattle.sim_board.specs.Filling.{Holds};
ghost use Rattle.sim_board.specs.Seats.{with_actor};
ghost use Rattle.sim_sweep.specs.Demands.{HasRoomFor, IsDemand};
ghost use Rattle.sim_sweep.specs.Due.{IsDueIn};
ghost use Rattle.sim_sweep.specs.Workers.{HasSwept, IsReady, made_of};

use crate::demand::Demand;
use crate::kept::words_of;
use board_core::{Due, Words};
use sim_board::{Board, BoardSeat, Placed};
use sim_engine::SimEngine;
use year_system::Book;

/// Puts the words of the slot in hand, and publishes it.
fn fill_slot<D: Due>(board: &Board<D>, seat: &mut BoardSeat, words: &Words)
    requires table { seat.old.table_id ≡ board.now.table_id }
    requires hand { (h : Hand) × Holds seat.old (words_of words.now) h }
    ensures seat { (h : Hand) → seat.old.actor.hand ≡ Some h → seat.new ≡ with_actor seat.old (publishes seat.old.actor h.slot) }
{
    let row = words.to_array();
    for at in 0..11usize {
        board.put_word(seat, at as u64, row[at]);
    }
    board.publish(seat);
}

/// Places the code of a demand, and simulates and publishes its row where no seat got it before. Answers how many
/// it simulated.
fn sweep_one<E: SimEngine, D: Due>(
    board: &Board<D>,
    book: &Book,
    demand: &Demand,
    seat: &mut BoardSeat,
    engine: &mut E,
) -> u64
    requires ready { IsReady board.now seat.old }
    requires demand { IsDemand book.now demand.now }
    requires due { IsDueIn book.now board.now.rows demand.now }
    requires room { HasRoomFor (E.room engine.old) book.now demand.now }
    ensures ready { IsReady board.now seat.new }
    ensures swept { HasSwept (record { room = E.room; work = E.work }) book.now (demand.now ∷ []) seat.old seat.new engine.old engine.new }
    ensures got { result + made_of seat.old ≡ made_of seat.new }
    ensures few { result ≤ 1 }
{
    match board.place(seat, demand.code) {
        Placed::Mine(_) => {
            let row = engine.simulate(book.get(demand.id), &demand.config);
            fill_slot(board, seat, &words_of(&row));
            1
        }
        Placed::There(_) => 0,
    }
}

/// Goes through demands, one after the other. Answers how many it simulated.
fn sweep_list<E: SimEngine, D: Due>(
    board: &Board<D>,
    book: &Book,
    demands: &[Demand],
    seat: &mut BoardSeat,
    engine: &mut E,
) -> u64
    requires ready { IsReady board.now seat.old }
    requires demands { All (IsDemand book.now) demands.now }
    requires due { All (IsDueIn book.now board.now.rows) demands.now }
    requires room { All (HasRoomFor (E.room engine.old) book.now) demands.now }
    ensures ready { IsReady board.now seat.new }
    ensures swept { HasSwept (record { room = E.room; work = E.work }) book.now demands.now seat.old seat.new engine.old engine.new }
    ensures got { result + made_of seat.old ≡ made_of seat.new }
    ensures few { result ≤ length demands.now }
{
    let mut count = 0;
    for demand in demands {
        count += sweep_one(board, book, demand, seat, engine);
    }
    count
}

/// Goes through all demands, from a place on and round the end. Answers how many it simulated.
pub(crate) fn sweep_from<E: SimEngine, D: Due>(
    board: &Board<D>,
    book: &Book,
    demands: &[Demand],
    from: usize,
    seat: &mut BoardSeat,
    engine: &mut E,
) -> u64
    requires from { from ≤ length demands.now }
    requires ready { IsReady board.now seat.old }
    requires demands { All (IsDemand book.now) demands.now }
    requires due { All (IsDueIn book.now board.now.rows) demands.now }
    requires room { All (HasRoomFor (E.room engine.old) book.now) demands.now }
    ensures ready { IsReady board.now seat.new }
    ensures swept { HasSwept (record { room = E.room; work = E.work }) book.now demands.now seat.old seat.new engine.old engine.new }
    ensures got { result + made_of seat.old ≡ made_of seat.new }
    ensures few { result ≤ length demands.now }
{
    let (before, own) = demands.split_at(from);
    let first = sweep_list(board, book, own, seat, engine);
    first + sweep_list(board, book, before, seat, engine)
}
