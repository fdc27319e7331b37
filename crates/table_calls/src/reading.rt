// The readers: the table that some bytes begin with, or that they are.
ghost use Rattle.std.specs.Prelude.{◌≡◌};
ghost use Rattle.drive_sets.specs.Lent.{buffer_after};
ghost use Rattle.table_files.specs.Files.{read_table, read_whole};
ghost use Rattle.table_replies.specs.Replies.{table_reply, fitting_table, sets_read};

use table_files::files::{read_table, read_whole};
use table_replies::reading::{TableReply, put_table, refused_table};

// The table that the bytes begin with, with anything behind it: the sets of its normal table over the first places of
// out.
#[unsafe(no_mangle)]
pub extern "C" fn regdulyn_read_table(s: &[u8], out: &mut [u64]) -> TableReply
    ensures value { result ≡ table_reply s.now (fitting_table out.old (read_table s.now)) }
    ensures out_after { out.new ≡ buffer_after (sets_read (fitting_table out.old (read_table s.now))) 0 out.old }
{
    let mut rest: &[u8] = s;
    match read_table(s, &mut rest) {
        Err(r) => refused_table(r),
        Ok(t) => put_table(
            t.table.n,
            t.table.sets.as_slice(),
            s.len() - rest.len(),
            out,
        ),
    }
}

// The table that the bytes are: bytes after the end meet 7.
#[unsafe(no_mangle)]
pub extern "C" fn regdulyn_read_whole(s: &[u8], out: &mut [u64]) -> TableReply
    ensures value { result ≡ table_reply s.now (fitting_table out.old (read_whole s.now)) }
    ensures out_after { out.new ≡ buffer_after (sets_read (fitting_table out.old (read_whole s.now))) 0 out.old }
{
    match read_whole(s) {
        Err(r) => refused_table(r),
        Ok(t) => put_table(t.table.n, t.table.sets.as_slice(), s.len(), out),
    }
}
