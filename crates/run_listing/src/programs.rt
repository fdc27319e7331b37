// The run program as a function: from the bytes on the input to the text that is printed, in a lent buffer.
ghost use Rattle.std.specs.Prelude.{◌≡◌, ◌≤◌, IfOk};
ghost use Rattle.drive_sets.specs.Filled.{Filled};
ghost use Rattle.drive_sets.specs.Refusals.{yields};
ghost use Rattle.simulation.specs.Endings.{told_by, simulated_outcome};
ghost use Rattle.run_listing.specs.RunListing.{run_text, simulated_with, simulated_file, run_program};
ghost use Rattle.run_listing.specs.RunParts.{file_outcome};
ghost use Rattle.text.specs.Printing.{Printed};
ghost use Rattle.drive_sets.specs.Limits.{max_drives};

use crate::run_text::{put_core_line, put_drives};
use drive_sets::Refusal;
use run_files::reading::read_run_file;
use simulation::simulating::{Simulated, simulate};
use table_files::files::read_table;
use text::lines::put_refused;
use text::printing::{MAX_TEXT, print_made};

// How the drives of a simulated exchange end.
fn put_simulated(buf: &mut [u8], n: u8, s: &Simulated) -> usize
    requires { n ≤ max_drives }
    ensures { Filled buf.old buf.new 0 result (run_text (yields (told_by n s.now))) }
{
    let listed = put_drives(buf, n, s);
    put_core_line(buf, listed, s.core, s.stops)
}

// The simulated exchange of a run file, given n and sets and the bytes behind their table: the table's refusals, then
// those of the file.
pub fn simulate_with(n: u8, sets: &[u64], run: &[u8]) -> Result<Simulated, Refusal>
    ensures { simulated_outcome n result ≡ simulated_with n sets.now run.now }
{
    let file = read_run_file(n, sets, run)?;
    simulate(n, sets, file.numbers, file.crashes)
}

// The same of a table and the run file behind it, with the table's n.
fn simulate_file(input: &[u8]) -> Result<(u8, Simulated), Refusal>
    ensures value { file_outcome result ≡ simulated_file input.now }
    ensures high { IfOk result (λ r. r.0 ≤ max_drives) }
{
    let mut rest: &[u8] = input;
    let t = read_table(input, &mut rest)?;
    let n = t.table.n;
    let simulated = simulate_with(n, t.table.sets.as_slice(), rest)?;
    Ok((n, simulated))
}

// The text of the run program.
fn put_run(buf: &mut [u8], input: &[u8]) -> usize
    ensures { Filled buf.old buf.new 0 result (run_program input.now) }
{
    match simulate_file(input) {
        Err(r) => put_refused(buf, 0, r),
        Ok((n, simulated)) => put_simulated(buf, n, &simulated),
    }
}

// What the run program prints for the bytes on its input: how the drives of the simulated exchange end, or a refusal's
// line.
pub fn run_listing(input: &[u8], out: &mut [u8], start: usize) -> Result<usize, Refusal>
    ensures { Printed (run_program input.now) start out.old out.new result }
{
    let mut made = [0u8; MAX_TEXT];
    let size = put_run(&mut made, input);
    print_made(&made, size, out, start)
}
