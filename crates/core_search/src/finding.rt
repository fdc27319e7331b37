// All minimal hitting sets, each once, in an order, in the first places of a lent slice.
ghost use Rattle.std.specs.Prelude.{◌≡◌, length};
ghost use Rattle.set_orders.specs.Sorting.{precedes};
ghost use Rattle.core_search.specs.Found.{room_in, Found};

use search_attempts::Attempt;
use search_turns::search_until_done;
use set_orders::slices;
use set_orders::sorting::Order;
use survivor_tables::MAX_CORES;

// The search in a list that has as much room as out; what is found is copied into out, and nothing where there are too
// many.
fn search_into(order: Order, sets: &[u64], list: &mut [u64], out: &mut [u64]) -> Attempt
    requires { length list.old ≡ room_in out.old }
    ensures { Found (precedes order) sets.now out.old out.new result.found }
{
    let r = search_until_done(order, sets, list);
    if r.found <= list.len() {
        slices::copy(&list[0..r.found], out);
    }
    r
}

// The same as `minimal_hitting_sets`, with how far the search had to go: `turn` and `left` are free, since they decide
// no result.
pub fn measured_search(order: Order, sets: &[u64], out: &mut [u64]) -> Attempt
    ensures { Found (precedes order) sets.now out.old out.new result.found }
{
    let room = out.len().min(MAX_CORES);
    let mut list = [0u64; MAX_CORES];
    search_into(order, sets, &mut list[0..room], out)
}

// The minimal hitting sets of the sets, at most 1024, in the first places of out, in order, and how many; one more than
// the room says that there are more. Behind them out is as it was, and where there are more than the room all of it is.
pub fn minimal_hitting_sets(order: Order, sets: &[u64], out: &mut [u64]) -> usize
    ensures { Found (precedes order) sets.now out.old out.new result }
{
    measured_search(order, sets, out).found
}
