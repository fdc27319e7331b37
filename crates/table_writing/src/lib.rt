// The writer of lists of masks: FR, SV.. or FL.., EN into the part of the lent buffer from the cursor on; and of tables,
// which writes the normal table.
#![tactic(auto)]

ghost use Rattle.std.specs.Prelude.{◌≡◌};
ghost use Rattle.drive_sets.specs.Lent.{written};
ghost use Rattle.table_files.specs.Files.{record_of, file_bytes};
ghost use Rattle.table_writing.specs.Writing.{write_list, write_table};
ghost use Rattle.records.specs.RecordLists.{list_bytes};
ghost use Rattle.lent_bytes.specs.LentBuffers.{WrittenIfRoom};

use drive_sets::Refusal;
use records::{END, END_WIDTH, FRAME, FRAME_WIDTH, MASK_RECORD_WIDTH};
use survivor_tables::MAX_SETS;
use survivor_tables::frames::MaskKind;
use table_files::reading::record_of;

// FR and EN together.
const ENDS_WIDTH: usize = FRAME_WIDTH + END_WIDTH;

// The records of the masks over the first bytes of the part; every other byte stays. Nothing where they do not fit.
#[tactic(auto, using(crate::proofs::Writes::masks_none, crate::proofs::Writes::writing_start, crate::proofs::Writes::writing_turn, crate::proofs::Writes::writing_end))]
fn put_masks(part: &mut [u8], kind: MaskKind, masks: &[u64])
    ensures { part.new ≡ written (list_bytes (record_of kind) masks.now) part.old }
{
    if part.len() / MASK_RECORD_WIDTH < masks.len() {
        return;
    }
    let mark = records::mark_of(record_of(kind));
    for (i, &mask) in masks.iter().enumerate() {
        lent_bytes::put_record(&mut part[MASK_RECORD_WIDTH * i..], mark, 8, mask);
    }
}

// The list of n drives and these masks over the first bytes of the part; every other byte stays. Nothing where it does
// not fit.
#[tactic(auto, using(crate::proofs::Writes::file_none, crate::proofs::Writes::file_written), unfolding(records::specs::Marks::mark, records::specs::Marks::mark_text, records::specs::Marks::ascii, records::specs::Fields::from_bytes))]
fn put_list(part: &mut [u8], kind: MaskKind, n: u8, masks: &[u64])
    ensures { part.new ≡ written (file_bytes kind n masks.now) part.old }
{
    if part.len() < ENDS_WIDTH {
        return;
    }
    if (part.len() - ENDS_WIDTH) / MASK_RECORD_WIDTH < masks.len() {
        return;
    }
    let end = FRAME_WIDTH + MASK_RECORD_WIDTH * masks.len();
    lent_bytes::put_record(part, FRAME, 1, n as u64);
    put_masks(&mut part[FRAME_WIDTH..], kind, masks);
    lent_bytes::put_record(&mut part[end..], END, 1, masks.len() as u64);
}

// The list as it is handed over into the lent buffer, from the starting place on, touching only its own bytes: 5 for
// more than 128 masks, then 14; on a refusal the buffer stays as it was.
pub fn write_list(
    kind: MaskKind,
    n: u8,
    masks: &[u64],
    buf: &mut [u8],
    start: usize,
) -> Result<usize, Refusal>
    ensures { WrittenIfRoom (write_list kind n masks.now) start buf.old buf.new result }
{
    if MAX_SETS < masks.len() {
        return Err(Refusal::TooManySets);
    }
    let size = ENDS_WIDTH + MASK_RECORD_WIDTH * masks.len();
    if !lent_bytes::fits(buf.len(), start, size) {
        return Err(Refusal::NoRoom);
    }
    put_list(&mut buf[start..], kind, n, masks);
    Ok(size)
}

// The writer of tables: the normal table of n drives and some sets. The table's refusals, then 14; on a refusal the
// buffer stays as it was.
#[tactic(auto, using(lent_bytes::proofs::Buffers::written_refused, crate::proofs::Writes::table_refused, crate::proofs::Writes::table_written))]
pub fn write_table(n: u8, sets: &[u64], buf: &mut [u8], start: usize) -> Result<usize, Refusal>
    ensures { WrittenIfRoom (write_table n sets.now) start buf.old buf.new result }
{
    let t = complete_tables::accept(n, sets)?;
    write_list(
        MaskKind::SurvivorSet,
        n,
        t.table.sets.as_slice(),
        buf,
        start,
    )
}
