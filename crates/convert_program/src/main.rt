// The convert program: reads a table or a fault list on standard input and prints the file of the other kind, or the
// line of a refusal, and nothing else.
//
// Input behind the first 4096 bytes changes nothing (`convert_program_prefix` in convert_files), and is left unread.
#![tactic(auto)]

ghost use Rattle.std.specs.Prelude.{IfSome, OnOk};
ghost use Rattle.std.specs.Io.KnownBytes.{Appends};
ghost use Rattle.convert_files.specs.ConvertFiles.{convert_program};

use convert_files::convert_file;
use drive_sets::Refusal;
use program_io::Program;
use std::io;
use std::io::{Read, Write};
use text::printing::MAX_INPUT;

// The program, as `program_io::answer` runs it.
struct ConvertProgram;

impl Program for ConvertProgram {
    ghost prints = { convert_program };

    fn text(input: &[u8], out: &mut [u8]) -> Result<usize, Refusal> {
        convert_file(input, out, 0)
    }
}

// Prints what the program gives for the whole input, of which it reads the first bytes alone.
fn answer<R: Read, W: Write>(from: &mut R, to: &mut W) -> io::Result<()>
    ensures { OnOk result (IfSome (R.remaining from.old) (λ input. Appends (W.contents to.old) (W.contents to.new) (convert_program input))) }
{
    program_io::answer::<ConvertProgram, _, _>(MAX_INPUT, from, to)
}

fn main(rt: HostRuntime) -> io::Result<()> {
    answer(&mut rt.stdin(), &mut rt.stdout())
}
