// The run program: reads a table and then a run file on standard input and prints how each drive of the simulated
// exchange ends, the core and the number of stops, or the line of the refusal, and nothing else.
//
// Input behind the first 4096 bytes changes nothing (`run_program_prefix` in run_listing), and is left unread.
#![tactic(auto)]

ghost use Rattle.std.specs.Prelude.{IfSome, OnOk};
ghost use Rattle.std.specs.Io.KnownBytes.{Appends};
ghost use Rattle.run_listing.specs.RunListing.{run_program};

use drive_sets::Refusal;
use program_io::Program;
use run_listing::programs::run_listing;
use std::io;
use std::io::{Read, Write};
use text::printing::MAX_INPUT;

// The program, as `program_io::answer` runs it.
struct RunProgram;

impl Program for RunProgram {
    ghost prints = { run_program };

    fn text(input: &[u8], out: &mut [u8]) -> Result<usize, Refusal> {
        run_listing(input, out, 0)
    }
}

// Prints what the program gives for the whole input, of which it reads the first bytes alone.
fn answer<R: Read, W: Write>(from: &mut R, to: &mut W) -> io::Result<()>
    ensures { OnOk result (IfSome (R.remaining from.old) (λ input. Appends (W.contents to.old) (W.contents to.new) (run_program input))) }
{
    program_io::answer::<RunProgram, _, _>(MAX_INPUT, from, to)
}

fn main(rt: HostRuntime) -> io::Result<()> {
    answer(&mut rt.stdin(), &mut rt.stdout())
}
