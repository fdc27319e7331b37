// The crashes of a scenario checked in order: 8, 9, 10 of each, rising by drive.
ghost use Rattle.std.specs.Prelude.{◌≡◌, ◌≤◌};
ghost use Rattle.drive_sets.specs.Refusals.{yields, outcome_of};
ghost use Rattle.runs.specs.CrashRecords.{checked_crash};
ghost use Rattle.drive_crashes.specs.Crashes.{crash_of_drive, crashes_in};
ghost use Rattle.simulation.specs.Simulation.{checked_crashes};

use drive_crashes::{Crashes, check_crash};
use drive_sets::{Drive, Drives, Refusal};

// The crash of one drive, after that of the last.
fn check_one(n: u8, core: u64, last: Drive, d: Drive, crashes: &Crashes) -> Result<(), Refusal>
    requires { (1 ≤ d.0) × (d.0 ≤ 64) }
    ensures { outcome_of result (crash_of_drive crashes.now d.0) ≡ checked_crash n core last.0 (crash_of_drive crashes.now d.0) }
{
    let at = (d.0 - 1) as usize;
    check_crash(n, core, last, d, crashes.rounds[at], crashes.sends[at])
}

// The first refusal that a crash meets.
pub(crate) fn check_all(n: u8, core: u64, crashes: &Crashes) -> Result<(), Refusal>
    ensures { outcome_of result (crashes_in crashes.now) ≡ checked_crashes n core 0 (crashes_in crashes.now) (yields (crashes_in crashes.now)) }
{
    let mut last = Drive(0);
    for d in Drives(crashes.crashed) {
        check_one(n, core, last, d, crashes)?;
        last = d;
    }
    Ok(())
}
