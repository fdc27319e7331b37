// Crashes of drives: what a CR says by drive, and refusals 8, 9 and 10.
#![tactic(auto)]

ghost use Rattle.std.specs.Prelude.{◌≡◌};
ghost use Rattle.drive_sets.specs.Refusals.{outcome_of};
ghost use Rattle.runs.specs.CrashRecords.{is_next, most_sends, checked_crash};
ghost use Rattle.drive_crashes.specs.Crashes.{no_crashes, crash_record};

use drive_sets::{Drive, Refusal, Round};

// Crashes by drive: the drives with a CR, and of each such drive d, at place d - 1, the round and the sends. A set and
// two arrays, as the C interface's `Scenario` lays them out.
#[derive(Clone, Copy)]
pub struct Crashes {
    pub crashed: u64,
    pub rounds: [Round; 64],
    pub sends: [u8; 64],
}

// No crash.
pub fn no_crashes() -> Crashes
    ensures { result ≡ no_crashes }
{
    Crashes {
        crashed: 0,
        rounds: [Round(0); 64],
        sends: [0u8; 64],
    }
}

// A drive of the frame, above the last.
pub fn is_next(n: u8, last: Drive, drive: Drive) -> bool
    ensures { result ≡ is_next n last.0 drive.0 }
{
    drive_sets::is_drive(n, drive) && last < drive
}

// How many sends a CR of the drive may have.
fn most_sends(n: u8, core: u64, drive: Drive) -> u8
    ensures { result ≡ most_sends n core drive.0 }
{
    if drive_sets::has(drive, core) {
        n.saturating_sub(1)
    } else {
        0
    }
}

// A CR after that of the last drive: 8, 9, 10.
pub fn check_crash(
    n: u8,
    core: u64,
    last: Drive,
    drive: Drive,
    round: Round,
    sends: u8,
) -> Result<(), Refusal>
    ensures { outcome_of result (crash_record drive round sends) ≡ checked_crash n core last.0 (crash_record drive round sends) }
{
    if !is_next(n, last, drive) {
        return Err(Refusal::DriveNumber);
    }
    if !drive_sets::is_round(core, round) {
        return Err(Refusal::CrashRound);
    }
    if most_sends(n, core, drive) < sends {
        return Err(Refusal::CrashSends);
    }
    Ok(())
}
