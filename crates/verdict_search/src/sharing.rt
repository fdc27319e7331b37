// Whether any k sets of a table, repeats allowed, share a drive, asked before they are searched for positions.
ghost use Rattle.std.specs.Prelude.{◌≡◌, true, ◌≤◌, length};
ghost use Rattle.drive_sets.specs.Limits.{max_sets};
ghost use Rattle.verdict_search.specs.Columns.{LackingOf};
ghost use Rattle.verdict_search.specs.Sharing.{AllShare};

use crate::columns::{Lacking, each_meets, rarest};
use drive_sets::Drive;

// Any k of the sets share a drive of `shared`. They do where k times the most drives that a set lacks are fewer than it
// has. Else, of k sets that share none, one lacks the drive that is taken here; so it is enough that, for each set that
// lacks it, any k - 1 share a drive of what `shared` and the set have in common.
pub(crate) fn all_share(k: u8, table: &[u64], lacking: &Lacking, shared: u64) -> bool
    requires { (1 ≤ k) × (length table.now ≤ max_sets) × LackingOf table.now lacking.now shared }
    ensures { result ≡ true → AllShare k table.now shared }
{
    if u64::from(k) * u64::from(lacking.most) < u64::from(drive_sets::size(shared)) {
        return true;
    }
    if k == 1 {
        return each_meets(&lacking.columns, shared);
    }
    if shared == 0 {
        return false;
    }
    let drive = Drive((rarest(&lacking.counts, shared) + 1) as u8);
    for &set in table {
        if !drive_sets::has(drive, set) && !all_share(k - 1, table, lacking, shared & set) {
            return false;
        }
    }
    true
}
