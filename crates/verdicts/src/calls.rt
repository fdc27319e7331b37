// The verdict calls: given n and sets, 12, then the table's refusals, then 33; and given a normal table, 12, then what
// needs no search for cores, then 33.
ghost use Rattle.std.specs.Prelude.{◌≡◌, ℕ, ◌≤◌, length};
ghost use Rattle.drive_sets.specs.Refusals.{outcome};
ghost use Rattle.verdicts.specs.Calls.{judged, verdict, verdict_given};
ghost use Rattle.verdicts.specs.Held.{judgement_of, held_in};
ghost use Rattle.drive_sets.specs.Limits.{max_sets};

use drive_sets::Refusal;
use survivor_tables::frames::MaskKind;
use verdict_search::{Verdict, find_verdict, is_block_count};

// The verdict on a normal table, as the answer of a call: 33 where the frame has k drives or fewer.
fn on_normal(k: u8, n: u8, table: &[u64]) -> Result<Verdict, Refusal>
    requires { (2 ≤ k) × (k ≤ 4) × (length table.now ≤ max_sets) }
    ensures says { judgement_of result k ≡ judged k n table.now }
    ensures whole { outcome result ≡ held_in (judged k n table.now) }
{
    if n <= k {
        return Err(Refusal::FewDrives);
    }
    Ok(find_verdict(k, n, table))
}

// The verdict on k of the table of n drives and some sets: 12, 3, 2, 5, 4, 13, 33.
pub fn judge(k: u8, n: u8, sets: &[u64]) -> Result<Verdict, Refusal>
    ensures says { judgement_of result k ≡ verdict k n sets.now }
    ensures whole { outcome result ≡ held_in (verdict k n sets.now) }
{
    if !is_block_count(k) {
        return Err(Refusal::BlockCount);
    }
    let t = complete_tables::accept(n, sets)?;
    on_normal(k, n, t.table.sets.as_slice())
}

// The verdict on k of a table of n drives whose sets are the normal table's: 12, 3, 2, 5, 4, 33. For a caller who has
// the cores already, since they are not looked for.
pub fn verdict_on(k: u8, n: u8, table: &[u64]) -> Result<Verdict, Refusal>
    ensures says { judgement_of result k ≡ verdict_given k n table.now }
    ensures whole { outcome result ≡ held_in (verdict_given k n table.now) }
{
    if !is_block_count(k) {
        return Err(Refusal::BlockCount);
    }
    complete_tables::check_masks(MaskKind::SurvivorSet, n, table)?;
    on_normal(k, n, table)
}
