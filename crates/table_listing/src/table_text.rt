// The text of an accepted table: its drives, its sets, its cores, the chosen one, and the verdicts on 2, 3 and 4.
ghost use Rattle.std.specs.Prelude.{◌≡◌, get_or};
ghost use Rattle.drive_sets.specs.Filled.{Filled};
ghost use Rattle.survivor_tables.specs.Tables.{cores};
ghost use Rattle.table_listing.specs.TableListing.{listing};

use text::Base;
use text::lines::{put_line, put_lines};
use verdict_lines::put_verdicts;

// The first, 0 where there is none.
fn first_group(groups: &[u64]) -> u64
    ensures { result ≡ get_or groups.now 0 0 }
{
    groups.first().copied().unwrap_or(0)
}

// The listing of a normal table, given its cores, from the buffer's first place on.
pub(crate) fn put_listing(buf: &mut [u8], n: u8, sets: &[u64], groups: &[u64]) -> usize
    requires { groups.now ≡ cores sets.now }
    ensures { Filled buf.old buf.new 0 result (listing n sets.now) }
{
    let counted = put_line(buf, 0, b"drives", Base::Decimal, n as u64);
    let listed = put_lines(buf, counted, b"set", Base::Hexadecimal, sets);
    let cored = put_lines(buf, listed, b"core", Base::Hexadecimal, groups);
    let chosen = put_line(
        buf,
        cored,
        b"chosen",
        Base::Hexadecimal,
        first_group(groups),
    );
    put_verdicts(buf, chosen, n, sets)
}
