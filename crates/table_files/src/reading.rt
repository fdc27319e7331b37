// The reader of lists of masks: FR with n, 1 to 128 SV or FL with a mask, EN with their count. Refusals are found from
// left to right.
ghost use Rattle.std.specs.Prelude.{◌≡◌, List, ℕ, ◌≤◌, length, IfOk};
ghost use Rattle.survivor_tables.specs.declared.frames.MaskKind.{MaskKind};
ghost use Rattle.table_files.specs.Files.{record_of, due_after, mask_list, read_listed};
ghost use Rattle.table_files.specs.Reading.{read_outcome};

use drive_sets::Refusal;
use record_lists::{RecordList, read_records};
use records::{Due, FRAME_WIDTH, Kind, MASK_RECORD_WIDTH, Next, field, next_record, read_head};
use survivor_tables::MAX_SETS;
use survivor_tables::frames::{MaskKind, SetList, Table, check_mask, is_frame};

// What is read: n with the masks, and how many bytes they took.
#[derive(Clone, Copy)]
pub struct TableRead {
    pub table: Table,
    pub used: usize,
}

// The records that the masks stand in: SV or FL.
#[tactic(auto, unfolding(crate::specs::Files::record_of))]
pub fn record_of(kind: MaskKind) -> Kind
    ensures { result ≡ record_of kind }
{
    match kind {
        MaskKind::SurvivorSet => Kind::Survivor,
        MaskKind::FaultGroup => Kind::Fault,
    }
}

// After FR one of them is due, and after one another or the end.
#[tactic(auto, unfolding(crate::specs::Files::due_after))]
fn due_after(kind: MaskKind, count: usize) -> Due
    ensures { result ≡ due_after kind count }
{
    if count == 0 {
        Due::AtRecord(record_of(kind))
    } else {
        Due::AtRecordOrEnd(record_of(kind))
    }
}

// The masks of a list, as far as they were read.
#[derive(Drop)]
struct Masks {
    kind: MaskKind,
    n: u8,
    sets: SetList,
}

impl RecordList for Masks {
    ghost Setting = { MaskKind × ℕ };

    ghost State = { List ℕ };

    ghost setting = { λ m. (m.kind, m.n) };

    ghost told = { λ m. m.sets.items };

    ghost format = { λ f. mask_list f.0 f.1 };

    // A list of masks ends with EN.
    fn ends(&self, _s: &[u8]) -> bool {
        false
    }

    fn take(&mut self, s: &[u8]) -> Result<Option<usize>, Refusal> {
        let count = self.sets.len();
        match next_record(s, due_after(self.kind, count), count)? {
            Next::End => Ok(None),
            Next::One => {
                if MAX_SETS <= count {
                    return Err(Refusal::TooManySets);
                }
                let mask = field(s, 2, 8);
                check_mask(self.kind, self.n, mask)?;
                self.sets.push(mask);
                Ok(Some(MASK_RECORD_WIDTH))
            }
        }
    }
}

// The masks as they are listed.
pub fn read_listed(s: &[u8], kind: MaskKind) -> Result<TableRead, Refusal>
    ensures value { read_outcome result s.now ≡ read_listed kind s.now }
    ensures within { IfOk result (λ r. r.used ≤ length s.now) }
{
    read_head(s, Due::AtRecord(Kind::Frame))?;
    let n = s[2];
    if !is_frame(n) {
        return Err(Refusal::FrameSize);
    }
    let mut masks = Masks {
        kind,
        n,
        sets: SetList::new(),
    };
    let used = read_records(&mut masks, &s[FRAME_WIDTH..])?;
    Ok(TableRead {
        table: Table {
            n,
            sets: masks.sets,
        },
        used: FRAME_WIDTH + used,
    })
}
