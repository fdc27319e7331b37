// The threshold program as a function: from n and t on the input, one byte each, to the bytes that are printed, in a
// lent buffer.
#![tactic(auto)]

ghost use Rattle.lent_bytes.specs.LentBuffers.{WrittenIfRoom};
ghost use Rattle.text.specs.Printing.{Printed};
ghost use Rattle.threshold_files.specs.ThresholdFiles.{threshold_file, asked, threshold_program};

use drive_sets::Refusal;
use text::printing::{MAX_TEXT, print_written};

// The file of the table from n and t over the first bytes of the buffer. 3, 31, 32, 13, 14.
#[tactic(auto, using(lent_bytes::proofs::Buffers::written_refused), unfolding(crate::specs::ThresholdFiles::threshold_file))]
fn write_file(n: u8, t: u8, buf: &mut [u8]) -> Result<usize, Refusal>
    ensures { WrittenIfRoom (threshold_file n t) 0 buf.old buf.new result }
{
    let sets = threshold::threshold_sets(n, t)?;
    table_writing::write_table(n, sets.as_slice(), buf, 0)
}

// The file that the input asks for. 1, 7, then the file's refusals.
#[tactic(auto, using(lent_bytes::proofs::Buffers::written_refused), unfolding(crate::specs::ThresholdFiles::asked))]
fn write_asked(input: &[u8], buf: &mut [u8]) -> Result<usize, Refusal>
    ensures { WrittenIfRoom (asked input.now) 0 buf.old buf.new result }
{
    match *input {
        [] | [_] => Err(Refusal::EndsTooSoon),
        [n, t] => write_file(n, t, buf),
        _ => Err(Refusal::TrailingBytes),
    }
}

// What the threshold program prints for the bytes on its input: the file of a table, or a refusal's line.
pub fn threshold_file(input: &[u8], out: &mut [u8], start: usize) -> Result<usize, Refusal>
    ensures { Printed (threshold_program input.now) start out.old out.new result }
{
    let mut made = [0u8; MAX_TEXT];
    let w = write_asked(input, &mut made);
    print_written(&mut made, w, out, start)
}
