// A whole exchange: the openings, then round after round, up to the core's size.
ghost use Rattle.std.specs.Prelude.{◌≡◌, true, ℕ, ◌^◌, ◌≤◌, ◌<◌};
ghost use Rattle.drive_sets.specs.Counts.{is_drive};
ghost use Rattle.runs.specs.Scenario.{Scenario};
ghost use Rattle.agreement.specs.Canonical.{canonical_ending};
ghost use Rattle.simulated_decisions.specs.Arguments.{Told};
ghost use Rattle.simulated_decisions.specs.Endings.{found_of, nothing_found};

use crate::noting::Notes;
use crate::{noting, opened};
use drive_crashes::Crashes;
use drive_sets::{MAX_DRIVES, Pattern, Round};
use simulated_rounds::rounds;

// The first decisions of the drives 1 to n, where the table has this chosen core. Where all have decided, the rounds to
// come change nothing.
fn run(n: u8, core: u64, numbers: &[Pattern; 64], crashes: &Crashes) -> Notes
    requires { (n ≤ 64) × (core < 2 ^ n) }
    ensures { (s : Scenario) → Told n core numbers.now crashes.now s → (d : ℕ) → is_drive n d ≡ true → found_of result d ≡ canonical_ending s d }
{
    let mut states = opened::open_all(n, core, numbers);
    let mut found = noting::nothing();
    for r in 1..=drive_sets::size(core) as u8 {
        let round = Round(r);
        rounds::one_round(&mut states, n, core, crashes, round);
        noting::note_all(&mut found, &states, n, round);
        if noting::all_decided(&found, n) {
            break;
        }
    }
    found
}

// The same of any frame and core: nothing where the frame does not hold the core, which no scenario has.
pub fn first_decisions(n: u8, core: u64, numbers: &[Pattern; 64], crashes: &Crashes) -> Notes
    ensures value { (s : Scenario) → Told n core numbers.now crashes.now s → (d : ℕ) → is_drive n d ≡ true → found_of result d ≡ canonical_ending s d }
    ensures none { (n ≤ 64 → core < 2 ^ n → ⊥) → result ≡ nothing_found }
{
    if MAX_DRIVES < n || !drive_sets::subset(core, drive_sets::full(n)) {
        return noting::nothing();
    }
    run(n, core, numbers, crashes)
}
