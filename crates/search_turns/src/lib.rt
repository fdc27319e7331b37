// Searches for the minimal hitting sets of a list of sets that take turns until one is done. Against each order of the
// sets and each rule that was tried there is a table made, so that a search with little fuel is followed by others, in
// other orders and by other rules, with more and more fuel.
#![tactic(auto)]

ghost use Rattle.std.specs.Prelude.{◌≤◌, length, IfSome};
ghost use Rattle.set_orders.specs.Sorting.{precedes};
ghost use Rattle.search_orders.specs.Rearranged.{Permuted};
ghost use Rattle.search_attempts.specs.Attempts.{Attempted};

use hitting_sets::search::Mode;
use search_attempts::{Attempt, search_once};
use search_orders::{dead_ends, levels};
use set_orders::sorting::Order;
use set_orders::{slices, sorting};
use survivor_tables::MAX_CORES;

// The turns of a round, of which each second looks ahead: level order, without look-ahead and with it; by size, with it;
// by mask, without; and between these, and at the end, the sets with most dead ends first. A turn is a number and no
// enum, since its place in the round tells its order, whether it looks ahead and its fuel.
const ROUND: usize = 8;

const BY_LEVEL: usize = 0;

const BY_LEVEL_AHEAD: usize = 1;

const BY_SIZE: usize = 3;

const BY_MASK: usize = 6;

// Sixteen rounds: so many that no search is known to come to their end.
const TURNS: usize = 16 * ROUND;

// The sets put into the order of this turn.
fn arrange(turn: usize, sets: &mut [u64], ends: &[u64])
    ensures { Permuted sets.old sets.new }
{
    let n = sets.len();
    match turn % ROUND {
        BY_LEVEL | BY_LEVEL_AHEAD => levels::level_order(sets),
        BY_SIZE => sorting::sort(Order::BySize, sets, n),
        BY_MASK => sorting::sort(Order::ByMask, sets, n),
        _ => dead_ends::put_first(sets, ends),
    }
}

// A fraction of a millisecond, by the sets that branchings look at.
const WORK: usize = 250_000;

// What a branching takes beside looking at sets, in sets.
const OTHER_WORK: usize = 16;

// Fuel does not grow above this, so that its multiples are numbers.
const MOST_FUEL: usize = 0x1_0000_0000;

// The fuel for so much work on n sets, and for one branching at each of them; hardly any where they are too many to be
// copied.
fn fuel_for(work: usize, n: usize) -> usize
    requires { work ≤ 250000 }
{
    if MAX_CORES < n {
        return 1;
    }
    work / (n + OTHER_WORK) + n
}

// The fuel of a turn: level order without look-ahead, which most often does best, has four times that of the others.
fn fuel_of(turn: usize, fuel: usize) -> usize {
    if fuel < MOST_FUEL && turn % ROUND == BY_LEVEL {
        return 4 * fuel;
    }
    fuel
}

// Each round has twice the fuel of the one before.
fn next_fuel(turn: usize, fuel: usize) -> usize {
    if fuel < MOST_FUEL && turn % ROUND == ROUND - 1 {
        return 2 * fuel;
    }
    fuel
}

// Turn after turn, until a search is done.
fn in_turns(order: Order, sets: &mut [u64], list: &mut [u64], ends: &mut [u64]) -> Option<Attempt>
    ensures { IfSome result (λ a. Attempted (precedes order) sets.old (length list.old) list.new a.found) }
{
    let mut fuel = fuel_for(WORK, sets.len());
    for turn in 0..TURNS {
        arrange(turn, sets, ends);
        let mode = Mode {
            look_ahead: turn % 2 == 1,
            limited: true,
        };
        let tried = search_once(turn + 1, mode, order, sets, list, fuel_of(turn, fuel), ends);
        if tried.is_some() {
            return tried;
        }
        fuel = next_fuel(turn, fuel);
    }
    None
}

// The turns on a copy of the sets, where they are at most 1024.
fn search_again(order: Order, sets: &[u64], list: &mut [u64], ends: &mut [u64]) -> Option<Attempt>
    ensures { IfSome result (λ a. Attempted (precedes order) sets.now (length list.old) list.new a.found) }
{
    let n = sets.len();
    if MAX_CORES < n {
        return None;
    }
    let mut ordered = [0u64; MAX_CORES];
    slices::copy(sets, &mut ordered);
    in_turns(order, &mut ordered[0..n], list, ends)
}

// One search after the other, until one is done. Most lists of sets end with the first. The last, which no list that is
// known needs, has no limit.
pub fn search_until_done(order: Order, sets: &[u64], list: &mut [u64]) -> Attempt
    ensures { Attempted (precedes order) sets.now (length list.old) list.new result.found }
{
    let mut ends = [0u64; MAX_CORES];
    let plain = Mode {
        look_ahead: false,
        limited: true,
    };
    let fuel = fuel_for(WORK / 2, sets.len());
    if let Some(first) = search_once(0, plain, order, sets, list, fuel, &mut ends) {
        return first;
    }
    if let Some(later) = search_again(order, sets, list, &mut ends) {
        return later;
    }
    let unlimited = Mode {
        look_ahead: true,
        limited: false,
    };
    search_once(TURNS + 1, unlimited, order, sets, list, 1, &mut ends).unwrap()
}
