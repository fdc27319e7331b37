// The groups of k out of n drives, put into a lent slice.
ghost use Rattle.std.specs.Prelude.{◌≡◌, map, ◌+◌, ◌≤◌, length, take};
ghost use Rattle.drive_sets.specs.Filled.{Filled};
ghost use Rattle.drive_sets.specs.Limits.{max_drives};
ghost use Rattle.drive_sets.specs.Masks.{union};
ghost use Rattle.threshold.specs.Groups.{groups, group_count};

use drive_sets::Drive;

// The groups of k out of the drives 1 to n, each with the drives of `with`, by mask, behind the first `at` places of
// `out`; how many places are then filled. A call has one drive less and lists a group, so the calls are at most n deep.
fn put_groups(n: u8, k: u8, with: u64, out: &mut [u64], at: usize) -> usize
    requires { (k ≤ n) × (n ≤ max_drives) × (at + group_count k n ≤ length out.old) }
    ensures { Filled out.old out.new at result (map (union with) (groups k n)) }
{
    if k == 0 {
        out[at] = with;
        return at + 1;
    }
    if k == n {
        out[at] = with | drive_sets::full(n);
        return at + 1;
    }
    let next = put_groups(n - 1, k, with, out, at);
    put_groups(n - 1, k - 1, drive_sets::insert(with, Drive(n)), out, next)
}

// The groups of k out of n drives, by mask, into the first places of `out`; how many there are.
pub(crate) fn fill_groups(n: u8, k: u8, out: &mut [u64]) -> usize
    requires { (k ≤ n) × (n ≤ max_drives) × (group_count k n ≤ length out.old) }
    ensures { (result ≡ group_count k n) × (take result out.new ≡ groups k n) }
{
    put_groups(n, k, 0, out, 0)
}
