// Runs stored inputs through the calls of the four programs and prints all that they give, one after the other. The
// stored output is what the second program prints for the same inputs; `tests/make_vectors` makes both.
//
// An input is: one byte, 0 for the table program, 1 for the run program, 2 for the threshold program and 3 for the
// convert program; its length, 2 bytes, lowest first; its bytes.
#![tactic(auto)]

ghost use Rattle.std.specs.Prelude.{◌≤◌};

use convert_files::convert_file;
use drive_sets::Refusal;
use program_io::{read_start, write_written};
use run_listing::programs::run_listing;
use std::io;
use std::io::Write;
use table_listing::programs::table_listing;
use text::printing::MAX_TEXT;
use threshold_files::threshold_file;

// How many bytes of stored inputs are read.
const MAX_STORED: usize = 131072;

// How many bytes the input at the start has.
fn width(s: &[u8]) -> usize
    ensures { result ≤ 65535 }
{
    (records::field(s, 1, 2) % 65536) as usize
}

// What the input at the start gives. The program is matched by the number of the stored format: this is its one use, and
// an enum of the four would name each of them twice more.
fn list(s: &[u8], text: &mut [u8]) -> Result<usize, Refusal> {
    let input = records::first(records::rest(s, 3), width(s));
    match records::field(s, 0, 1) {
        0 => table_listing(input, text, 0),
        1 => run_listing(input, text, 0),
        2 => threshold_file(input, text, 0),
        _ => convert_file(input, text, 0),
    }
}

// Prints what the input at the start gives.
fn print<W: Write>(s: &[u8], to: &mut W) -> io::Result<()> {
    let mut text = [0u8; MAX_TEXT];
    let w = list(s, &mut text);
    write_written(to, w, &text)
}

fn print_all<W: Write>(s: &[u8], to: &mut W) -> io::Result<()> {
    let mut rest = s;
    while !rest.is_empty() {
        print(rest, to)?;
        rest = records::rest(rest, 3 + width(rest));
    }
    Ok(())
}

fn main(rt: HostRuntime) -> io::Result<()> {
    let mut input = [0u8; MAX_STORED];
    let n = read_start(&mut rt.stdin(), &mut input)?;
    print_all(&input[..n], &mut rt.stdout())
}
