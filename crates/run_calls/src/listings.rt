// What the table program and the run program print for the bytes on their input. A file that is refused has a listing
// too, the line with its number: only 14 refuses a listing.
ghost use Rattle.std.specs.Prelude.{◌≡◌, length};
ghost use Rattle.drive_sets.specs.Lent.{fitting, size_written, buffer_after};
ghost use Rattle.table_listing.specs.TableListing.{table_program};
ghost use Rattle.run_listing.specs.RunListing.{run_program};
ghost use Rattle.c_replies.specs.Replies.{size_reply};

use c_replies::{SizeReply, written_size};
use run_listing::programs::run_listing;
use table_listing::programs::table_listing;

// The table program's text into out, from the starting place on; how many bytes.
#[unsafe(no_mangle)]
pub extern "C" fn regdulyn_table_listing(input: &[u8], out: &mut [u8], start: usize) -> SizeReply
    ensures value { result ≡ size_reply (size_written (fitting start (length out.old) (table_program input.now))) }
    ensures out_after { out.new ≡ buffer_after (fitting start (length out.old) (table_program input.now)) start out.old }
{
    written_size(table_listing(input, out, start))
}

// The run program's text into out, from the starting place on; how many bytes.
#[unsafe(no_mangle)]
pub extern "C" fn regdulyn_run_listing(input: &[u8], out: &mut [u8], start: usize) -> SizeReply
    ensures value { result ≡ size_reply (size_written (fitting start (length out.old) (run_program input.now))) }
    ensures out_after { out.new ≡ buffer_after (fitting start (length out.old) (run_program input.now)) start out.old }
{
    written_size(run_listing(input, out, start))
}
