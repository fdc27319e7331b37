// How many groups of t out of n drives there are, held at 1025: the entries of the constant table.
ghost use Rattle.std.specs.Prelude.{◌≡◌, ◌≤◌};
ghost use Rattle.drive_sets.specs.Limits.{max_drives};
ghost use Rattle.threshold.specs.Counts.{count_at};

use crate::group_counts::GROUP_COUNTS;

// The entries of a row, and the rows: n and t are 0 to 64.
const ROW_LENGTH: usize = 65;

// The entry for n and t: how many groups of t out of n drives there are, and 1025 where there are more (`count_held`).
pub(crate) fn group_count(n: u8, t: u8) -> u16
    requires { (n ≤ max_drives) × (t ≤ max_drives) }
    ensures { result ≡ count_at n t }
{
    GROUP_COUNTS[n as usize * ROW_LENGTH + t as usize]
}
