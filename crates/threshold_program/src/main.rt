// The threshold program: reads n and t on standard input, one byte each, and prints the file of the table of all groups
// of n - t drives, or the line of a refusal, and nothing else.
//
// A third byte is refused; what stands behind it is left unread.
#![tactic(auto)]

ghost use Rattle.std.specs.Prelude.{IfSome, OnOk};
ghost use Rattle.std.specs.Io.KnownBytes.{Appends};
ghost use Rattle.threshold_files.specs.ThresholdFiles.{threshold_program};

use drive_sets::Refusal;
use program_io::Program;
use std::io;
use std::io::{Read, Write};
use threshold_files::threshold_file;

// The program, as `program_io::answer` runs it.
struct ThresholdProgram;

impl Program for ThresholdProgram {
    ghost prints = { threshold_program };

    fn text(input: &[u8], out: &mut [u8]) -> Result<usize, Refusal> {
        threshold_file(input, out, 0)
    }
}

// Prints what the program gives for the whole input, of which it reads the first bytes alone.
fn answer<R: Read, W: Write>(from: &mut R, to: &mut W) -> io::Result<()>
    ensures { OnOk result (IfSome (R.remaining from.old) (λ input. Appends (W.contents to.old) (W.contents to.new) (threshold_program input))) }
{
    program_io::answer::<ThresholdProgram, _, _>(3, from, to)
}

fn main(rt: HostRuntime) -> io::Result<()> {
    answer(&mut rt.stdin(), &mut rt.stdout())
}
