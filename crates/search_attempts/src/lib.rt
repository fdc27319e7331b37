// One search for the minimal hitting sets of a list of sets, which may give up; what it finds, put in order.
#![tactic(auto)]

ghost use Rattle.std.specs.Prelude.{◌≡◌, false, ◌<◌, length, IfSome, IsSome};
ghost use Rattle.set_orders.specs.Sorting.{precedes};
ghost use Rattle.search_attempts.specs.Attempts.{Attempted};

use hitting_sets::search::{Mode, Tally, search_all};
use set_orders::sorting;
use set_orders::sorting::Order;

// A search that is done: how many are found; and, for measuring, its turn, 0 for the first search, and the fuel that it
// left.
#[derive(Clone, Copy)]
pub struct Attempt {
    pub found: usize,
    pub turn: usize,
    pub left: usize,
}

// One search through the sets as they stand; what is found is put in order. None where it gives up.
pub fn search_once(
    turn: usize,
    mode: Mode,
    order: Order,
    sets: &[u64],
    list: &mut [u64],
    fuel: usize,
    ends: &mut [u64],
) -> Option<Attempt>
    ensures attempted { IfSome result (λ a. Attempted (precedes order) sets.now (length list.old) list.new a.found) }
    ensures done { mode.limited ≡ false → 0 < fuel → IsSome result }
{
    ends.fill(0);
    let Tally { found, left } = search_all(mode, sets, list, fuel, ends);
    let attempt = Some(Attempt { found, turn, left });
    if list.len() < found {
        return attempt;
    }
    if left == 0 {
        return None;
    }
    sorting::sort(order, list, found);
    attempt
}
