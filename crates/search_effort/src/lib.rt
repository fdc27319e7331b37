// How far the search for cores has to go, for tests of its worst case (`bench/run climb`): no call of the C interface.
#![tactic(auto)]

ghost use Rattle.std.specs.Prelude.{◌≡◌, suc, min, length};
ghost use Rattle.drive_sets.specs.Limits.{max_cores};
ghost use Rattle.survivor_tables.specs.Hitting.{minimals};

use set_orders::sorting::Order;
use survivor_tables::MAX_CORES;

// How many cores some sets have, 1025 for more than 1024; the turn of the search that found them, and the fuel then
// left.
#[repr(C)]
#[derive(Clone, Copy)]
pub struct Effort {
    pub found: u64,
    pub turn: u64,
    pub left: u64,
}

// `turn` and `left` are free, since they decide no result.
#[unsafe(no_mangle)]
pub extern "C" fn regdulyn_search_effort(sets: &[u64]) -> Effort
    ensures { result.found ≡ min (suc max_cores) (length (minimals sets.now)) }
{
    let mut cores = [0u64; MAX_CORES];
    let r = core_search::finding::measured_search(Order::BySize, sets, &mut cores);
    Effort {
        found: r.found as u64,
        turn: r.turn as u64,
        left: r.left as u64,
    }
}
