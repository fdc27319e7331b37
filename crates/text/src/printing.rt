// A text handed over in a lent buffer.
ghost use Rattle.std.specs.Prelude.{◌≡◌, ℕ, List, ◌≤◌, min, length, take};
ghost use Rattle.drive_sets.specs.Filled.{Filled};
ghost use Rattle.drive_sets.specs.Refusals.{Outcome};
ghost use Rattle.lent_bytes.specs.LentBuffers.{WrittenIfRoom};
ghost use Rattle.text.specs.Printing.{Printed, printed, bytes_in, AnswerPut};

use crate::lines::put_refused;
use drive_sets::Refusal;

// No text of a program is longer: 1024 cores and 128 sets take a line of at most 22 bytes each, the rest less than 1024
// bytes.
pub const MAX_TEXT: usize = 32768;

// The bytes of its input that a program reads; what stands behind them changes nothing.
pub const MAX_INPUT: usize = 4096;

// A text from the starting place on, touching only its own bytes; nothing where it does not fit.
pub fn print(text: &[u8], out: &mut [u8], start: usize) -> Result<usize, Refusal>
    ensures { Printed text.now start out.old out.new result }
{
    if !lent_bytes::fits(out.len(), start, text.len()) {
        return Err(Refusal::NoRoom);
    }
    let end = start + text.len();
    out[start..end].copy_from_slice(text);
    Ok(text.len())
}

// A text that a call has put into a buffer from the first byte on, of so many bytes, handed over.
pub fn print_made(made: &[u8], size: usize, out: &mut [u8], start: usize) -> Result<usize, Refusal>
    ensures { (before text : List ℕ) → length text ≤ length before → Filled before made.now 0 size text → Printed text start out.old out.new result }
{
    print(&made[..size.min(made.len())], out, start)
}

// A file that a call has written into a buffer from the first byte on, or the line of its refusal, handed over.
pub fn print_written(
    made: &mut [u8],
    w: Result<usize, Refusal>,
    out: &mut [u8],
    start: usize,
) -> Result<usize, Refusal>
    ensures { (before : List ℕ) (file : Outcome (List ℕ)) → length (printed file) ≤ length before → length made.old ≡ length before → WrittenIfRoom file 0 before made.old w → Printed (printed file) start out.old out.new result }
{
    let size = put_written(made, w);
    print_made(made, size, out, start)
}

// How many bytes of the buffer an answer says were written.
pub fn written(w: Result<usize, Refusal>, buf: &[u8]) -> usize
    ensures bounds { (result ≤ length buf.now) × (result ≡ length (take result buf.now)) }
    ensures value { result ≡ min (bytes_in w) (length buf.now) }
{
    w.unwrap_or(0).min(buf.len())
}

// What an answer leaves to be printed: the bytes that were written over the first places of the buffer, or the line of
// the refusal in their place; how many.
pub fn put_written(buf: &mut [u8], w: Result<usize, Refusal>) -> usize
    ensures { AnswerPut w buf.old buf.new result }
{
    match w {
        Ok(size) => size,
        Err(r) => put_refused(buf, 0, r),
    }
}
