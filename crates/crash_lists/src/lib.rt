// The CR records of a run file and its EN, a record at a time: the crashes by drive, or the first refusal. What is left
// to read gives at each record what the whole gives.
#![tactic(auto)]

ghost use Rattle.std.specs.Prelude.{◌≡◌, ◌≤◌, ltb, length, IfOk};
ghost use Rattle.drive_sets.specs.Limits.{max_drives};
ghost use Rattle.drive_sets.specs.Refusals.{refuse_if};
ghost use Rattle.records.specs.RecordLists.{read_list};
ghost use Rattle.drive_crashes.specs.Crashes.{with_crash};
ghost use Rattle.crash_lists.specs.CrashLists.{no_crash, crash_list};
ghost use Rattle.crash_lists.specs.Reading.{crashes_outcome};

use crate::listed::Listed;
use drive_crashes::{Crashes, no_crashes};
use drive_sets::{Drive, MAX_DRIVES, Refusal, Round};
use record_lists::read_records;

mod listed;

// The crashes read, the drive of the last, and how many bytes they took with EN.
#[derive(Clone, Copy)]
pub struct CrashesRead {
    pub crashes: Crashes,
    pub last: Drive,
    pub used: usize,
}

// The crash of one more drive.
fn note(crashes: &mut Crashes, drive: Drive, round: Round, sends: u8)
    requires { (1 ≤ drive.0) × (drive.0 ≤ max_drives) }
    ensures { crashes.new ≡ with_crash crashes.old drive.0 round sends }
{
    let i = (drive.0 - 1) as usize;
    crashes.crashed = drive_sets::insert(crashes.crashed, drive);
    crashes.rounds[i] = round;
    crashes.sends[i] = sends;
}

// The records behind the last PR or PW, for any n and core: 3 where n is above 64, then their refusals.
pub fn read_crashes(s: &[u8], n: u8, core: u64) -> Result<CrashesRead, Refusal>
    ensures value { crashes_outcome result s.now ≡ refuse_if (ltb max_drives n) Refusal.FrameSize (read_list (crash_list n core) no_crash s.now) }
    ensures within { IfOk result (λ r. r.used ≤ length s.now) }
{
    if MAX_DRIVES < n {
        return Err(Refusal::FrameSize);
    }
    let mut listed = Listed {
        n,
        core,
        crashes: no_crashes(),
        last: Drive(0),
        count: 0,
    };
    let used = read_records(&mut listed, s)?;
    Ok(CrashesRead {
        crashes: listed.crashes,
        last: listed.last,
        used,
    })
}
