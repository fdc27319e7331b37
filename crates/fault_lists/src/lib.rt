// Fault lists: the conversions between a fault list, given as n and groups, and a survivor table, given as n and sets;
// and the fault list in normal form. Each survivor set is the rest of the frame.
#![tactic(auto)]

ghost use Rattle.std.specs.Prelude.{◌≡◌, ◌≤◌, length};
ghost use Rattle.drive_sets.specs.Limits.{max_sets};
ghost use Rattle.complete_tables.specs.Complete.{complete_outcome, sets_of};
ghost use Rattle.tables.specs.Answers.{list_outcome};
ghost use Rattle.fault_lists.specs.FaultLists.{rests, complete_from_faults, fault_list, faults_from_table};

use complete_tables::{TableWithCores, accept, check_masks};
use drive_sets::Refusal;
use survivor_tables::frames::{MaskKind, SetList};

// The rest of the frame for each mask, the last first.
fn rests(n: u8, masks: &[u64]) -> SetList
    requires { length masks.now ≤ max_sets }
    ensures { result.items ≡ rests n masks.now }
{
    let mut out = SetList::new();
    for &mask in masks.iter().rev() {
        out.push(drive_sets::outside(n, mask));
    }
    out
}

// The normal table of a fault list, with its cores: 3, 2, 5, then 4 and 34 group by group, then 13.
pub fn table_from_faults(n: u8, groups: &[u64]) -> Result<TableWithCores, Refusal>
    ensures { complete_outcome result ≡ complete_from_faults n groups.now }
{
    check_masks(MaskKind::FaultGroup, n, groups)?;
    accept(n, rests(n, groups).as_slice())
}

// A fault list in normal form, its largest groups by mask rising: 3, 2, 5, then 4 and 34 group by group, then 13.
pub fn fault_list(n: u8, groups: &[u64]) -> Result<SetList, Refusal>
    ensures { list_outcome result ≡ fault_list n groups.now }
{
    match &table_from_faults(n, groups) {
        Err(r) => Err(*r),
        Ok(t) => Ok(rests(t.table.n, t.table.sets.as_slice())),
    }
}

// The fault list of a table, in normal form: 3, 2, 5, 4, 13.
pub fn faults_from_table(n: u8, sets: &[u64]) -> Result<SetList, Refusal>
    ensures { list_outcome result ≡ faults_from_table n sets.now }
{
    match &accept(n, sets) {
        Err(r) => Err(*r),
        Ok(t) => Ok(rests(t.table.n, t.table.sets.as_slice())),
    }
}
