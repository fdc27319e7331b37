// Fault lists as bytes: the reader, which shares its loop with that of tables, and the writer.
#![tactic(auto)]

ghost use Rattle.std.specs.Prelude.{◌≡◌};
ghost use Rattle.lent_bytes.specs.LentBuffers.{WrittenIfRoom};
ghost use Rattle.fault_files.specs.FaultFiles.{read_faults, write_faults, write_faults_from, faults_outcome};

use drive_sets::Refusal;
use fault_lists::{fault_list, faults_from_table};
use survivor_tables::frames::{MaskKind, Table};
use table_files::reading::read_listed;
use table_writing::write_list;

// The fault list that the bytes are: n and its largest groups by mask rising. Left to right 1 to 5 and 34, 6, then 7
// and 13.
#[tactic(auto, using(complete_tables::proofs::Completes::rest_some), unfolding(crate::specs::FaultFiles::read_faults))]
pub fn read_faults(s: &[u8]) -> Result<Table, Refusal>
    ensures { faults_outcome result ≡ read_faults s.now }
{
    let listed = read_listed(s, MaskKind::FaultGroup)?;
    if listed.used < s.len() {
        return Err(Refusal::TrailingBytes);
    }
    let n = listed.table.n;
    let sets = fault_list(n, listed.table.sets.as_slice())?;
    Ok(Table { n, sets })
}

// The writer: the fault list of n and groups in normal form into the lent buffer, from the starting place on, touching
// only its own bytes. 3, 2, 5, then 4 and 34 group by group, 13, then 14; on a refusal the buffer stays as it was.
#[tactic(auto, using(lent_bytes::proofs::Buffers::written_refused, table_writing::proofs::Writes::list_written), unfolding(crate::specs::FaultFiles::write_faults))]
pub fn write_faults(n: u8, groups: &[u64], buf: &mut [u8], start: usize) -> Result<usize, Refusal>
    ensures { WrittenIfRoom (write_faults n groups.now) start buf.old buf.new result }
{
    let list = fault_list(n, groups)?;
    write_list(MaskKind::FaultGroup, n, list.as_slice(), buf, start)
}

// The same of a table, given as n and sets: the fault list that it is converted to. 3, 2, 5, 4, 13, then 14.
#[tactic(auto, using(lent_bytes::proofs::Buffers::written_refused, table_writing::proofs::Writes::list_written), unfolding(crate::specs::FaultFiles::write_faults_from))]
pub fn write_faults_from(
    n: u8,
    sets: &[u64],
    buf: &mut [u8],
    start: usize,
) -> Result<usize, Refusal>
    ensures { WrittenIfRoom (write_faults_from n sets.now) start buf.old buf.new result }
{
    let list = faults_from_table(n, sets)?;
    write_list(MaskKind::FaultGroup, n, list.as_slice(), buf, start)
}
