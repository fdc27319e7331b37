// The table program: reads a table on standard input and prints its listing, or the line of its refusal, and nothing
// else.
//
// Input behind the first 4096 bytes changes nothing (`table_program_prefix` in table_listing), and is left unread.
#![tactic(auto)]

ghost use Rattle.std.specs.Prelude.{IfSome, OnOk};
ghost use Rattle.std.specs.Io.KnownBytes.{Appends};
ghost use Rattle.table_listing.specs.TableListing.{table_program};

use drive_sets::Refusal;
use program_io::Program;
use std::io;
use std::io::{Read, Write};
use table_listing::programs::table_listing;
use text::printing::MAX_INPUT;

// The program, as `program_io::answer` runs it.
struct TableProgram;

impl Program for TableProgram {
    ghost prints = { table_program };

    fn text(input: &[u8], out: &mut [u8]) -> Result<usize, Refusal> {
        table_listing(input, out, 0)
    }
}

// Prints what the program gives for the whole input, of which it reads the first bytes alone.
fn answer<R: Read, W: Write>(from: &mut R, to: &mut W) -> io::Result<()>
    ensures { OnOk result (IfSome (R.remaining from.old) (λ input. Appends (W.contents to.old) (W.contents to.new) (table_program input))) }
{
    program_io::answer::<TableProgram, _, _>(MAX_INPUT, from, to)
}

fn main(rt: HostRuntime) -> io::Result<()> {
    answer(&mut rt.stdin(), &mut rt.stdout())
}
