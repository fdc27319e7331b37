// A table that was read, put into lent memory.
ghost use Rattle.std.specs.Prelude.{◌≡◌, List, ℕ};
ghost use Rattle.drive_sets.specs.Refusals.{refused, yields, number};
ghost use Rattle.drive_sets.specs.Lent.{buffer_after};
ghost use Rattle.table_files.specs.Files.{ReadTable};
ghost use Rattle.table_replies.specs.Replies.{table_reply, fitting_table, sets_read};
ghost use Rattle.table_replies.specs.Reading.{TableHeld};

use crate::lists;
use drive_sets::Refusal;

// A table that was read: how many sets it has, how many bytes it took, and its drives.
#[repr(C)]
#[derive(Clone, Copy)]
pub struct TableReply {
    pub count: usize,
    pub used: usize,
    pub refusal: u32,
    pub n: u8,
}

pub fn refused_table(r: Refusal) -> TableReply
    ensures { (s : List ℕ) → result ≡ table_reply s (refused (number r)) }
{
    TableReply {
        count: 0,
        used: 0,
        refusal: u32::from(r.number()),
        n: 0,
    }
}

// The sets of a table of n drives that was read, of so many bytes, over the first places of out. 14 where there are too
// few places.
pub fn put_table(n: u8, sets: &[u64], used: usize, out: &mut [u64]) -> TableReply
    ensures { (s : List ℕ) (t : ReadTable) → TableHeld n sets.now used s t → (result ≡ table_reply s (fitting_table out.old (yields t))) × (out.new ≡ buffer_after (sets_read (fitting_table out.old (yields t))) 0 out.old) }
{
    match lists::put(sets, out) {
        Err(r) => refused_table(r),
        Ok(count) => TableReply {
            count,
            used,
            refusal: 0,
            n,
        },
    }
}
