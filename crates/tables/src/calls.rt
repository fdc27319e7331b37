// The calls given n and sets or groups: the chosen core, the first set that some drives miss, and Back.
ghost use Rattle.std.specs.Prelude.{◌≡◌};
ghost use Rattle.drive_sets.specs.Lists.{all};
ghost use Rattle.drive_sets.specs.Refusals.{outcome};
ghost use Rattle.survivor_tables.specs.Tables.{is_set, chosen_core, missed_set, survivor_sets};
ghost use Rattle.tables.specs.Answers.{list_outcome};

use complete_tables::accept;
use core_search::finding::minimal_hitting_sets;
use drive_sets::Refusal;
use set_orders::sorting::Order;
use survivor_tables::frames::{SetList, is_frame, is_set};
use survivor_tables::missed::first_missed;
use survivor_tables::{MAX_CORES, MAX_SETS};

// The chosen core of a table: the first of its cores.
pub fn chosen_core(n: u8, sets: &[u64]) -> Result<u64, Refusal>
    ensures { outcome result ≡ chosen_core n sets.now }
{
    let t = accept(n, sets)?;
    Ok(t.cores.as_slice()[0])
}

// The first set of the normal table that the drives of a group miss, by its position; none where they meet them all. A
// group that is no set of the frame meets 4, after the table's own refusals.
pub fn missed_set(n: u8, sets: &[u64], group: u64) -> Result<Option<usize>, Refusal>
    ensures { outcome result ≡ missed_set n sets.now group }
{
    let t = accept(n, sets)?;
    if !is_set(n, group) {
        return Err(Refusal::BadSet);
    }
    Ok(first_missed(t.table.sets.as_slice(), group))
}

// Each is a set of the frame.
fn all_sets(n: u8, sets: &[u64]) -> bool
    ensures { result ≡ all (is_set n) sets.now }
{
    sets.iter().all(|&s| is_set(n, s))
}

// Back: the smallest groups that meet each of the groups. 3, 13, 4, 5.
pub fn survivor_sets(n: u8, groups: &[u64]) -> Result<SetList, Refusal>
    ensures { list_outcome result ≡ survivor_sets n groups.now }
{
    if !is_frame(n) {
        return Err(Refusal::FrameSize);
    }
    if groups.is_empty() {
        return Err(Refusal::TooManyCores);
    }
    if MAX_CORES < groups.len() {
        return Err(Refusal::TooManyCores);
    }
    if !all_sets(n, groups) {
        return Err(Refusal::BadSet);
    }
    let mut sets = [0u64; MAX_SETS];
    let count = minimal_hitting_sets(Order::ByMask, groups, &mut sets);
    if MAX_SETS < count {
        return Err(Refusal::TooManySets);
    }
    Ok(SetList::first(sets, count))
}
