// The table program as a function: from the bytes on the input to the text that is printed, in a lent buffer.
ghost use Rattle.std.specs.Prelude.{◌≡◌};
ghost use Rattle.drive_sets.specs.Filled.{Filled};
ghost use Rattle.survivor_tables.specs.Tables.{cores};
ghost use Rattle.complete_tables.specs.Complete.{sets_of};
ghost use Rattle.table_listing.specs.TableListing.{listing, table_program};
ghost use Rattle.text.specs.Printing.{Printed};

use crate::table_text::put_listing;
use complete_tables::TableWithCores;
use drive_sets::Refusal;
use text::lines::put_refused;
use text::printing::{MAX_TEXT, print_made};

// The listing of a table that was read with its cores.
fn put_complete(buf: &mut [u8], t: &TableWithCores) -> usize
    requires { t.now.cores.items ≡ cores (sets_of t.now.table) }
    ensures { Filled buf.old buf.new 0 result (listing t.now.table.n (sets_of t.now.table)) }
{
    put_listing(buf, t.table.n, t.table.sets.as_slice(), t.cores.as_slice())
}

// The text of the table program.
#[tactic(auto, using(table_files::proofs::TableReads::read_refused, table_files::proofs::TableReads::read_accepted, table_files::proofs::TableReads::read_cores, drive_sets::specs::Filled::Laws::filled_same), unfolding(crate::specs::TableListing::table_program, table_files::specs::WithCores::read_whole_complete, complete_tables::specs::Complete::with_cores))]
fn put_table(buf: &mut [u8], input: &[u8]) -> usize
    ensures { Filled buf.old buf.new 0 result (table_program input.now) }
{
    match &table_files::files::read_whole(input) {
        Err(r) => put_refused(buf, 0, *r),
        Ok(t) => put_complete(buf, t),
    }
}

// What the table program prints for the bytes on its input: the listing of a table, or a refusal's line.
pub fn table_listing(input: &[u8], out: &mut [u8], start: usize) -> Result<usize, Refusal>
    ensures { Printed (table_program input.now) start out.old out.new result }
{
    let mut made = [0u8; MAX_TEXT];
    let size = put_table(&mut made, input);
    print_made(&made, size, out, start)
}
