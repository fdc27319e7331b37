// What the crashes of a scenario, by drive, say of a drive in a round.
ghost use Rattle.std.specs.Prelude.{◌≡◌, List, ℕ, ◌≤◌, length, take};
ghost use Rattle.runs.specs.Scenario.{gone_before, gone_by};
ghost use Rattle.agreement.specs.Sends.{cut};
ghost use Rattle.simulated_rounds.specs.Rounds.{crash_at};

use crate::Setting;
use drive_sets::{Drive, MAX_DRIVES};

impl Setting<'_> {
    // A CR for an earlier round.
    pub(crate) fn gone_before(&self, d: Drive) -> bool
        ensures { result ≡ gone_before (crash_at self.now.crashes.now d.0) self.now.round.0 }
    {
        drive_sets::has(d, self.crashes.crashed)
            && self.crashes.rounds[(d.0 - 1) as usize] < self.round
    }

    // A CR for this round or an earlier one. By a comparison of its own: the round after the last has no number.
    pub(crate) fn gone_by(&self, d: Drive) -> bool
        ensures { result ≡ gone_by (crash_at self.now.crashes.now d.0) self.now.round.0 }
    {
        drive_sets::has(d, self.crashes.crashed)
            && self.crashes.rounds[(d.0 - 1) as usize] <= self.round
    }

    // How many sends of this round's list the drive makes; 64, which no list is longer than, where it has no CR for this
    // round.
    pub(crate) fn sends_made(&self, d: Drive) -> u8
        ensures { (l : List ℕ) → length l ≤ 64 → cut (crash_at self.now.crashes.now d.0) self.now.round.0 l ≡ take result l }
    {
        if !drive_sets::has(d, self.crashes.crashed) {
            return MAX_DRIVES;
        }
        let place = (d.0 - 1) as usize;
        if self.crashes.rounds[place] != self.round {
            return MAX_DRIVES;
        }
        self.crashes.sends[place]
    }
}
