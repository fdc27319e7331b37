// What the PR and PW records of a list propose, as far as they were read.
ghost use Rattle.std.specs.Prelude.{◌≡◌, ℕ, ◌≤◌, length, take};
ghost use Rattle.drive_sets.specs.Limits.{max_drives};
ghost use Rattle.drive_states.specs.State.{values};
ghost use Rattle.proposal_lists.specs.ProposalLists.{ProposalList, proposal_list};

use crate::note;
use drive_crashes::is_next;
use drive_sets::{Drive, Pattern, Refusal};
use record_lists::RecordList;
use records::Due;

// For n drives: the numbers, the drive of the last record, and the core drives whose record is owed.
#[derive(Drop)]
pub(crate) struct Proposed {
    pub(crate) n: u8,
    pub(crate) numbers: [Pattern; 64],
    pub(crate) last: Drive,
    pub(crate) owed: u64,
    pub(crate) ghost frame: { n ≤ max_drives },
    pub(crate) ghost room: { length numbers ≡ max_drives },
}

impl RecordList for Proposed {
    ghost Setting = { ℕ };

    ghost State = { ProposalList };

    ghost setting = { λ p. p.n };

    ghost told = { λ p. record { numbers = take p.n (values p.numbers); last = p.last.0; owed = p.owed } };

    ghost format = { proposal_list };

    // None is owed, and drive n has had its own or no PR or PW starts the bytes.
    fn ends(&self, s: &[u8]) -> bool {
        if self.owed != 0 {
            return false;
        }
        self.n <= self.last.0 || !records::starts(s, Due::AtProposal)
    }

    fn take(&mut self, s: &[u8]) -> Result<Option<usize>, Refusal> {
        let kind = records::read_head(s, Due::AtProposal)?;
        let drive = Drive(s[2]);
        if !is_next(self.n, self.last, drive) {
            return Err(Refusal::DriveNumber);
        }
        if drive_sets::lowest(self.owed) < drive {
            return Err(Refusal::DriveNumber);
        }
        let number = records::pattern_at(s, 3, kind);
        note(&mut self.numbers, drive, number, self.owed);
        self.owed = drive_sets::remove(self.owed, drive);
        self.last = drive;
        Ok(Some(2 + records::body_width(kind)))
    }
}
