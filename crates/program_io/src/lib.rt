// What the programs read and write: the start of an input, and the bytes of a text, over any reader and any writer.
#![tactic(auto)]

ghost use Rattle.std.specs.Prelude.{◌≡◌, ℕ, List, IfOk, IfSome, OnOk, take, length, min};
ghost use Rattle.std.specs.Io.{ReadsAtMost};
ghost use Rattle.std.specs.Io.KnownBytes.{Appends, Consumes};
ghost use Rattle.drive_sets.specs.Limits.{max_input};
ghost use Rattle.text.specs.Printing.{Printed, bytes_in};
ghost use Rattle.program_io.specs.Programs.{ReadsFirst};

use drive_sets::Refusal;
use std::io;
use std::io::{Read, Write};
use text::printing::{MAX_INPUT, MAX_TEXT};

// Reads until the buffer is full or the input ends; how many bytes. They are the first bytes of the input, and what
// stands behind them is left unread.
pub fn read_start<R: Read>(from: &mut R, buf: &mut [u8]) -> io::Result<usize>
    ensures bounds { ReadsAtMost result buf.new }
    ensures start { IfOk result (λ n. IfSome (R.remaining from.old) (λ input. take n buf.new ≡ take (length buf.old) input)) }
    ensures left { IfOk result (λ n. Consumes (R.remaining from.old) (R.remaining from.new) (take n buf.new)) }
{
    // Counted: a read gives as many bytes as it likes.
    let mut done = 0;
    while done < buf.len() {
        let n = from.read(&mut buf[done..])?;
        if n == 0 {
            break;
        }
        done += n;
    }
    Ok(done)
}

// Writes what an answer says of the first bytes of a text: as many as were written there, and none on a refusal.
pub fn write_written<W: Write>(to: &mut W, w: Result<usize, Refusal>, text: &[u8]) -> io::Result<()>
    ensures { OnOk result (Appends (W.contents to.old) (W.contents to.new) (take (min (bytes_in w) (length text.now)) text.now)) }
{
    let size = text::printing::written(w, text);
    to.write_all(&text[..size])
}

// A program as a call: it puts the text that it prints for an input into a lent buffer.
pub trait Program {
    ghost prints: { List ℕ → List ℕ };

    fn text(input: &[u8], out: &mut [u8]) -> Result<usize, Refusal>
        ensures { Printed (prints input.now) 0 out.old out.new result };
}

// Prints what a program gives for the whole input, of which it reads the first bytes alone: so many, and no more than
// 4096.
pub fn answer<P: Program, R: Read, W: Write>(
    most: usize,
    from: &mut R,
    to: &mut W,
) -> io::Result<()>
    ensures { ReadsFirst (min most max_input) P.prints → OnOk result (IfSome (R.remaining from.old) (λ input. Appends (W.contents to.old) (W.contents to.new) (P.prints input))) }
{
    let mut input = [0u8; MAX_INPUT];
    let part = &mut input[..most.min(MAX_INPUT)];
    let n = read_start(from, part)?;
    let mut text = [0u8; MAX_TEXT];
    let w = P::text(&part[..n], &mut text);
    write_written(to, w, &text)
}
