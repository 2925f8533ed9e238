//! The sweep: all workers go through all demands, and their seats come back as one.
ghost use Rattle.std.specs.Prelude.{◌≡◌, ℕ, ◌+◌, ◌*◌, ◌-◌, ◌^◌, ◌<◌, ◌≤◌, [], ◌∷◌, ◌++◌, All, IfOk, OnErr, OnOk, length, vec_capacity};
ghost use Rattle.board_core.specs.Lists.{IsIn, total};
ghost use Rattle.sim_board.specs.Seats.{HasFilled, SeatIs};
ghost use Rattle.sim_sweep.specs.Demands.{IsDemand};
ghost use Rattle.sim_sweep.specs.Due.{IsDueIn};
ghost use Rattle.sim_sweep.specs.Workers.{CanSweep, HasSeenAll, IsReady, SeesAll, SweepsAll, share_of, times_made};

use crate::demand::Demand;
use crate::parallel::sweep_parts;
use crate::tally::Tally;
use board_core::Due;
use sim_board::{Board, BoardSeat};
use sim_engine::SimEngine;
use std::alloc::Global;
use std::thread::Threads;
use wasp_fixed::OutOfMemory;
use year_system::Book;

/// Splits seats off for a number of workers, one less than these, each with a share of 1. After want of memory the
/// seat is as before.
pub fn split_for<D: Due>(
    alloc: Global,
    board: &Board<D>,
    seat: &mut BoardSeat,
    workers: u64,
) -> Result<Vec<BoardSeat>, OutOfMemory>
    requires ready { IsReady board.now seat.old }
    requires whole { share_of seat.old ≡ 64 }
    requires some { 1 ≤ workers }
    requires most { workers ≤ 64 }
    ensures count { IfOk result (λ others. length others.items + 1 ≡ workers) }
    ensures each { IfOk result (λ others. All (IsReady board.now) others.items) }
    ensures fresh { IfOk result (λ others. (s : SeatIs) → IsIn s others.items → s.actor.made ≡ []) }
    ensures shares { IfOk result (λ others. share_of seat.new + total share_of others.items ≡ 64) }
    ensures ready { IsReady board.now seat.new }
    ensures made { seat.new.actor.made ≡ seat.old.actor.made }
    ensures err { OnErr result (seat.new ≡ seat.old) }
{
    let mut others = Vec::with_capacity(alloc, (workers - 1) as usize)?;
    split_all(board, seat, workers - 1, &mut others);
    Ok(others)
}

/// Splits so many seats off, each with a share of 1, into a list that has room for them.
fn split_all<D: Due>(
    board: &Board<D>,
    seat: &mut BoardSeat,
    count: u64,
    others: &mut Vec<BoardSeat>,
)
    requires ready { IsReady board.now seat.old }
    requires share { count < share_of seat.old }
    requires few { count ≤ 63 }
    requires empty { others.old.items ≡ [] }
    requires room { count ≤ vec_capacity others.old }
    ensures count { length others.new.items ≡ count }
    ensures each { All (IsReady board.now) others.new.items }
    ensures fresh { (s : SeatIs) → IsIn s others.new.items → s.actor.made ≡ [] }
    ensures shares { share_of seat.new + total share_of others.new.items ≡ share_of seat.old }
    ensures ready { IsReady board.now seat.new }
    ensures made { seat.new.actor.made ≡ seat.old.actor.made }
{
    while (others.len() as u64) < count {
        put_seat(others, board.split(seat, 1));
    }
}

/// Puts a seat last, where there is room for one more.
fn put_seat(others: &mut Vec<BoardSeat>, seat: BoardSeat)
    requires { length others.old.items < vec_capacity others.old }
    ensures items { others.new.items ≡ others.old.items ++ seat ∷ [] }
    ensures capacity { vec_capacity others.old ≤ vec_capacity others.new }
{
    let Ok(()) = others.push(seat) else {
        unreachable!()
    };
}

/// Joins all other seats to one.
fn join_all<D: Due>(board: &Board<D>, seat: &mut BoardSeat, others: &mut Vec<BoardSeat>)
    requires ready { IsReady board.now seat.old }
    requires each { All (IsReady board.now) others.old.items }
    ensures empty { others.new.items ≡ [] }
    ensures ready { IsReady board.now seat.new }
    ensures share { share_of seat.new ≡ share_of seat.old + total share_of others.old.items }
    ensures made { (slot : ℕ) → times_made slot seat.new ≡ times_made slot seat.old + total (times_made slot) others.old.items }
    ensures seen { SeesAll seat.old seat.new }
    ensures theirs { (s : SeatIs) → IsIn s others.old.items → SeesAll s seat.new }
{
    while let Some(other) = others.pop() {
        board.join(seat, other);
    }
}

/// All workers go through all demands, each with a seat and an engine of its own, in a thread of its own; one engine
/// makes no thread. Each demanded code that is not of the start is simulated by the one engine whose seat got it, and
/// no other is. Afterwards there is one seat with the whole share and nothing in hand, and every demanded code stands
/// in a filled slot. It takes no memory and never refuses.
///
/// Each worker begins at its own share of the demands and goes on over the rest, so that neighbours in the list mostly
/// stay with one engine, and nobody waits for a code that another has in hand. No seat has taken a slot before, as
/// after `Board::start` and `split_for`.
pub fn sweep<E: SimEngine, D: Due, R: Threads + Sync>(
    rt: &R,
    board: &Board<D>,
    seat: &mut BoardSeat,
    others: &mut Vec<BoardSeat>,
    engines: &mut [E],
    book: &Book,
    demands: &[Demand],
    tally: &mut Tally,
)
    requires engines { length engines.old ≡ length others.old.items + 1 }
    requires most { length engines.old ≤ 64 }
    requires can { All (CanSweep E.room book.now demands.now) engines.old }
    requires ready { IsReady board.now seat.old }
    requires each { All (IsReady board.now) others.old.items }
    requires whole { share_of seat.old + total share_of others.old.items ≡ 64 }
    requires fresh { (seat.old.actor.made ≡ []) × ((s : SeatIs) → IsIn s others.old.items → s.actor.made ≡ []) }
    requires few { length demands.now < 2 ^ 23 }
    requires demands { All (IsDemand book.now) demands.now }
    requires due { All (IsDueIn book.now board.now.rows) demands.now }
    ensures empty { others.new.items ≡ [] }
    ensures ready { IsReady board.now seat.new }
    ensures whole { share_of seat.new ≡ 64 }
    ensures all { HasSeenAll seat.new demands.now }
    ensures filled { All (λ d. HasFilled seat.new d.code) demands.now }
    ensures swept { SweepsAll (record { room = E.room; work = E.work }) book.now board.now.start demands.now tally.old tally.new engines.old engines.new }
{
    let filled = sweep_parts(
        rt,
        board,
        book,
        demands,
        demands,
        demands,
        seat,
        others.as_mut_slice(),
        engines,
    );
    join_all(board, seat, others);
    seat.knows();
    tally.count(filled);
}
