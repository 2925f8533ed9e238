//! Workers in threads, each lent a seat and an engine.
ghost use Rattle.std.specs.Thread.{IsSync};
ghost use Rattle.std.specs.Prelude.{◌≡◌, ℕ, ◌+◌, ◌*◌, ◌^◌, ◌<◌, ◌≤◌, ◌∷◌, All, length};
ghost use Rattle.board_core.specs.Lists.{total};
ghost use Rattle.sim_sweep.specs.Demands.{IsDemand};
ghost use Rattle.sim_sweep.specs.Due.{IsDueIn};
ghost use Rattle.sim_sweep.specs.Workers.{CanSweep, EachOf, HasSwept, IsReady, made_of};

use crate::demand::Demand;
use crate::worker::sweep_from;
use board_core::Due;
use sim_board::{Board, BoardSeat};
use sim_engine::SimEngine;
use std::thread::{Threads, join_mut};
use year_system::Book;

/// How many of so many places are the share of the first `few` of `workers` workers.
fn share_of(places: usize, few: usize, workers: usize) -> usize
    requires { 1 ≤ workers }
    ensures { result ≤ places }
{
    (places.saturating_mul(few) / workers).min(places)
}

/// Each seat goes through all demands with an engine of its own, in a thread of its own, and answers how many were
/// simulated. The workers begin at their shares of `part`, from which on `ahead` has the rest of the demands; each goes
/// on from there to the end of the list and then from its front.
pub(crate) fn sweep_parts<E: SimEngine, D: Due, R: Threads + Sync>(
    rt: &R,
    board: &Board<D>,
    book: &Book,
    demands: &[Demand],
    ahead: &[Demand],
    part: &[Demand],
    seat: &mut BoardSeat,
    others: &mut [BoardSeat],
    engines: &mut [E],
) -> u64
    requires engines { length engines.old ≡ length others.old + 1 }
    requires ahead { length ahead.now ≤ length demands.now }
    requires part { length part.now ≤ length ahead.now }
    requires few { length demands.now < 2 ^ 23 }
    requires most { length engines.old ≤ 64 }
    requires ready { IsReady board.now seat.old }
    requires each { All (IsReady board.now) others.old }
    requires demands { All (IsDemand book.now) demands.now }
    requires due { All (IsDueIn book.now board.now.rows) demands.now }
    requires can { All (CanSweep E.room book.now demands.now) engines.old }
    ensures ready { IsReady board.now seat.new }
    ensures each { All (IsReady board.now) others.new }
    ensures swept { EachOf (HasSwept (record { room = E.room; work = E.work }) book.now demands.now) (seat.old ∷ others.old) (seat.new ∷ others.new) engines.old engines.new }
    ensures got { result + (made_of seat.old + total made_of others.old) ≡ made_of seat.new + total made_of others.new }
    ensures few { result ≤ 2 ^ 23 * length engines.old }
{
    if others.len() == 0 {
        let from = demands.len() - ahead.len();
        return sweep_from(board, book, demands, from, seat, &mut engines[0]);
    }
    let half = others.len() / 2;
    let share = share_of(part.len(), half + 1, others.len() + 1);
    let (mine, theirs) = part.split_at(share);
    let (_, later) = ahead.split_at(share);
    let (few, many) = engines.split_at_mut(half + 1);
    let (left, rest) = others.split_at_mut(half);
    let Some((first, right)) = rest.split_first_mut() else {
        unreachable!()
    };
    let (one, two) = join_mut(
        rt,
        &mut ||
            requires sync { IsSync R.row }
            requires engines { length few.now ≡ length left.now + 1 }
            requires ahead { length ahead.now ≤ length demands.now }
            requires part { length mine.now ≤ length ahead.now }
            requires few { length demands.now < 2 ^ 23 }
            requires most { length few.now ≤ 64 }
            requires ready { IsReady board.now seat.now }
            requires each { All (IsReady board.now) left.now }
            requires demands { All (IsDemand book.now) demands.now }
            requires due { All (IsDueIn book.now board.now.rows) demands.now }
            requires can { All (CanSweep E.room book.now demands.now) few.now }
            ensures ready { IsReady board.entry.now seat.exit.now }
            ensures each { All (IsReady board.entry.now) left.exit.now }
            ensures swept { EachOf (HasSwept (record { room = E.room; work = E.work }) book.entry.now demands.entry.now) (seat.entry.now ∷ left.entry.now) (seat.exit.now ∷ left.exit.now) few.entry.now few.exit.now }
            ensures got { result + (made_of seat.entry.now + total made_of left.entry.now) ≡ made_of seat.exit.now + total made_of left.exit.now }
            ensures few { result ≤ 2 ^ 23 * length few.entry.now }
        { sweep_parts(rt, board, book, demands, ahead, mine, seat, left, few) },
        &mut ||
            requires sync { IsSync R.row }
            requires engines { length many.now ≡ length right.now + 1 }
            requires ahead { length later.now ≤ length demands.now }
            requires part { length theirs.now ≤ length later.now }
            requires few { length demands.now < 2 ^ 23 }
            requires most { length many.now ≤ 64 }
            requires ready { IsReady board.now first.now }
            requires each { All (IsReady board.now) right.now }
            requires demands { All (IsDemand book.now) demands.now }
            requires due { All (IsDueIn book.now board.now.rows) demands.now }
            requires can { All (CanSweep E.room book.now demands.now) many.now }
            ensures ready { IsReady board.entry.now first.exit.now }
            ensures each { All (IsReady board.entry.now) right.exit.now }
            ensures swept { EachOf (HasSwept (record { room = E.room; work = E.work }) book.entry.now demands.entry.now) (first.entry.now ∷ right.entry.now) (first.exit.now ∷ right.exit.now) many.entry.now many.exit.now }
            ensures got { result + (made_of first.entry.now + total made_of right.entry.now) ≡ made_of first.exit.now + total made_of right.exit.now }
            ensures few { result ≤ 2 ^ 23 * length many.entry.now }
        { sweep_parts(rt, board, book, demands, later, theirs, first, right, many) },
    );
    one + two
}
