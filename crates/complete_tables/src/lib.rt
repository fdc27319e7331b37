// A table made complete: the normal table and its cores, at most 1024.
#![tactic(auto)]

ghost use Rattle.std.specs.Prelude.{◌≡◌};
ghost use Rattle.complete_tables.specs.Complete.{complete_table, complete_outcome};
ghost use Rattle.survivor_tables.specs.Tables.{each_mask, checked_masks};
ghost use Rattle.drive_sets.specs.Refusals.{yields, outcome_of};

use core_search::finding::minimal_hitting_sets;
use drive_sets::Refusal;
use normal_forms::normal;
use set_orders::sorting::Order;
use survivor_tables::frames::{CoreList, MaskKind, SetList, Table, check_mask, is_frame};
use survivor_tables::{MAX_CORES, MAX_SETS};

// A normal table with its cores.
#[derive(Clone, Copy)]
pub struct TableWithCores {
    pub table: Table,
    pub cores: CoreList,
}

// What the masks meet, mask by mask.
fn check_each(kind: MaskKind, n: u8, masks: &[u64]) -> Result<(), Refusal>
    ensures { outcome_of result masks.now ≡ each_mask kind n masks.now (yields masks.now) }
{
    for &mask in masks {
        check_mask(kind, n, mask)?;
    }
    Ok(())
}

// What n and survivor sets or fault groups meet before the cores are looked for: 3, 2, 5, then mask by mask.
pub fn check_masks(kind: MaskKind, n: u8, masks: &[u64]) -> Result<(), Refusal>
    ensures { outcome_of result masks.now ≡ checked_masks kind n masks.now }
{
    if !is_frame(n) {
        return Err(Refusal::FrameSize);
    }
    if masks.is_empty() {
        return Err(Refusal::WrongMark);
    }
    if MAX_SETS < masks.len() {
        return Err(Refusal::TooManySets);
    }
    check_each(kind, n, masks)
}

// The normal table of n drives and some sets, with its cores: 3, 2, 5, 4, 13. In one function, since each function that
// hands on a result of this size copies it.
pub fn accept(n: u8, sets: &[u64]) -> Result<TableWithCores, Refusal>
    ensures { complete_outcome result ≡ complete_table n sets.now }
{
    check_masks(MaskKind::SurvivorSet, n, sets)?;
    let mut smallest = [0u64; MAX_SETS];
    let count = normal(sets, &mut smallest)?;
    let sets = SetList::first(smallest, count);
    let mut cores = [0u64; MAX_CORES];
    let found = minimal_hitting_sets(Order::BySize, sets.as_slice(), &mut cores);
    if MAX_CORES < found {
        return Err(Refusal::TooManyCores);
    }
    let cores = CoreList::first(cores, found);
    Ok(TableWithCores {
        table: Table { n, sets },
        cores,
    })
}
