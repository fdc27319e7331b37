// The PR and PW records of a run file, a record at a time: the pattern numbers by drive, or the first refusal. A core
// drive's number is kept; a listener's record is checked for its place and dropped. What is left to read gives at each
// record what the whole gives.
#![tactic(auto)]

ghost use Rattle.std.specs.Prelude.{◌≡◌, cond, ◌-◌, ◌≤◌, IfOk, ltb, length, set};
ghost use Rattle.drive_sets.specs.Limits.{max_drives};
ghost use Rattle.drive_sets.specs.Masks.{has};
ghost use Rattle.drive_sets.specs.Refusals.{refuse_if};
ghost use Rattle.proposal_lists.specs.ProposalLists.{read_proposals};
ghost use Rattle.proposal_lists.specs.Reading.{proposals_outcome};

use crate::proposed::Proposed;
use drive_sets::{Drive, MAX_DRIVES, Pattern, Refusal};
use record_lists::read_records;

mod proposed;

// The numbers read, drive 1 first, and how many bytes their records took. At a listener's place stands 0.
#[derive(Clone, Copy)]
pub struct ProposalsRead {
    pub numbers: [Pattern; 64],
    pub used: usize,
}

// The number of the drive, where its record is owed.
fn note(numbers: &mut [Pattern; 64], drive: Drive, number: Pattern, owed: u64)
    requires { drive.0 ≤ max_drives }
    ensures { numbers.new ≡ cond (has drive.0 owed) (set numbers.old (drive.0 - 1) number) numbers.old }
{
    if drive_sets::has(drive, owed) {
        numbers[(drive.0 - 1) as usize] = number;
    }
}

// The records at the start of the bytes, for any n and core: 3 where n is above 64, then their refusals.
pub fn read_proposals(s: &[u8], n: u8, core: u64) -> Result<ProposalsRead, Refusal>
    ensures value { proposals_outcome n result s.now ≡ refuse_if (ltb max_drives n) Refusal.FrameSize (read_proposals n core s.now) }
    ensures within { IfOk result (λ r. r.used ≤ length s.now) }
{
    if MAX_DRIVES < n {
        return Err(Refusal::FrameSize);
    }
    let mut proposed = Proposed {
        n,
        numbers: [Pattern(0); 64],
        last: Drive(0),
        owed: core,
    };
    let used = read_records(&mut proposed, s)?;
    Ok(ProposalsRead {
        numbers: proposed.numbers,
        used,
    })
}
