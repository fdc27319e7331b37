// A table from n and t, for a frame of which it is known only that at most t of its n drives drop out.
#![tactic(auto)]

ghost use Rattle.std.specs.Prelude.{◌≡◌};
ghost use Rattle.tables.specs.Answers.{list_outcome};
ghost use Rattle.complete_tables.specs.Complete.{complete_outcome};
ghost use Rattle.threshold.specs.Threshold.{threshold_list, threshold_table};

use complete_tables::TableWithCores;
use drive_sets::Refusal;
use set_orders::sorting;
use set_orders::sorting::Order;
use survivor_tables::frames::{CoreList, SetList, Table, is_frame};
use survivor_tables::{MAX_CORES, MAX_SETS};

mod counts;
mod group_counts;
mod groups;

// The survivor sets: all groups of n - t drives. 3, 31, 32, 13: the constant table tells the last two, so that nothing
// is listed to refuse.
pub fn threshold_sets(n: u8, t: u8) -> Result<SetList, Refusal>
    ensures { list_outcome result ≡ threshold_list n t }
{
    if !is_frame(n) {
        return Err(Refusal::FrameSize);
    }
    if n <= t {
        return Err(Refusal::Threshold);
    }
    if MAX_SETS < counts::group_count(n, t) as usize {
        return Err(Refusal::TooManyGroups);
    }
    if MAX_CORES < counts::group_count(n, t + 1) as usize {
        return Err(Refusal::TooManyCores);
    }
    let mut sets = [0u64; MAX_SETS];
    let count = groups::fill_groups(n, n - t, &mut sets);
    Ok(SetList::first(sets, count))
}

// The table of these sets with its cores, which are all groups of t + 1 drives, in the cores' order.
pub fn threshold_table(n: u8, t: u8) -> Result<TableWithCores, Refusal>
    ensures { complete_outcome result ≡ threshold_table n t }
{
    let sets = threshold_sets(n, t)?;
    let mut cores = [0u64; MAX_CORES];
    let found = groups::fill_groups(n, t + 1, &mut cores);
    sorting::sort(Order::BySize, &mut cores, found);
    Ok(TableWithCores {
        table: Table { n, sets },
        cores: CoreList::first(cores, found),
    })
}
