// The convert program as a function: from a file of either kind on the input to the bytes that are printed, in a lent
// buffer.
#![tactic(auto)]

ghost use Rattle.std.specs.Prelude.{◌≡◌, ◌≤◌, length};
ghost use Rattle.lent_bytes.specs.LentBuffers.{WrittenIfRoom};
ghost use Rattle.text.specs.Printing.{Printed};
ghost use Rattle.convert_files.specs.ConvertFiles.{is_fault_list, write_table_from, table_file, fault_file, convert_file, convert_program};

use drive_sets::Refusal;
use fault_files::{read_faults, write_faults_from};
use fault_lists::table_from_faults;
use records::{Due, FRAME_WIDTH, Kind};
use survivor_tables::frames::MaskKind;
use table_files::files::read_whole;
use table_writing::write_list;
use text::printing::{MAX_TEXT, print_written};

// An FL stands behind FR.
#[tactic(auto, unfolding(crate::specs::ConvertFiles::is_fault_list, records::specs::Marks::is_due))]
fn is_fault_list(s: &[u8]) -> bool
    ensures { result ≡ is_fault_list s.now }
{
    records::starts(records::rest(s, FRAME_WIDTH), Due::AtRecord(Kind::Fault))
}

// The normal table of a fault list over the first bytes of the buffer.
fn write_table_from(n: u8, groups: &[u64], buf: &mut [u8]) -> Result<usize, Refusal>
    ensures { WrittenIfRoom (write_table_from n groups.now) 0 buf.old buf.new result }
{
    let t = table_from_faults(n, groups)?;
    write_list(MaskKind::SurvivorSet, n, t.table.sets.as_slice(), buf, 0)
}

// The file of the table of the fault list that the input is.
#[tactic(auto, using(lent_bytes::proofs::Buffers::written_refused), unfolding(crate::specs::ConvertFiles::table_file))]
fn write_table_file(input: &[u8], buf: &mut [u8]) -> Result<usize, Refusal>
    ensures { WrittenIfRoom (table_file input.now) 0 buf.old buf.new result }
{
    let list = read_faults(input)?;
    write_table_from(list.n, list.sets.as_slice(), buf)
}

// The file of the fault list of the table that the input is.
#[tactic(auto, using(lent_bytes::proofs::Buffers::written_refused, table_files::proofs::TableReads::read_refused, table_files::proofs::TableReads::read_accepted), unfolding(crate::specs::ConvertFiles::fault_file, table_files::specs::WithCores::read_whole_complete, complete_tables::specs::Complete::with_cores))]
fn write_fault_file(input: &[u8], buf: &mut [u8]) -> Result<usize, Refusal>
    ensures { WrittenIfRoom (fault_file input.now) 0 buf.old buf.new result }
{
    let t = read_whole(input)?;
    write_faults_from(t.table.n, t.table.sets.as_slice(), buf, 0)
}

// The other kind of file.
#[tactic(auto, unfolding(crate::specs::ConvertFiles::convert_file))]
fn write_converted(input: &[u8], buf: &mut [u8]) -> Result<usize, Refusal>
    ensures { WrittenIfRoom (convert_file input.now) 0 buf.old buf.new result }
{
    if is_fault_list(input) {
        return write_table_file(input, buf);
    }
    write_fault_file(input, buf)
}

// What the convert program prints for the bytes on its input: the file of the other kind, or a refusal's line.
pub fn convert_file(input: &[u8], out: &mut [u8], start: usize) -> Result<usize, Refusal>
    ensures { Printed (convert_program input.now) start out.old out.new result }
{
    let mut made = [0u8; MAX_TEXT];
    let w = write_converted(input, &mut made);
    print_written(&mut made, w, out, start)
}
