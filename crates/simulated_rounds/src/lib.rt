// One round of the simulated exchange: the sends, messages and closes of the canonical run, each a call of the
// exchange. The states of the drives stand in an array, drive 1 first, which the round is lent.
#![tactic(auto)]

ghost use Rattle.std.specs.Prelude.{ℕ, ◌^◌, ◌≤◌, ◌<◌};

use drive_crashes::Crashes;
use drive_sets::Round;

mod closing;
mod crashes;
pub mod rounds;

// A round of a scenario: the frame, which holds the core, the crashes, and which round it is.
#[derive(Drop)]
struct Setting<'a> {
    n: u8,
    core: u64,
    crashes: &'a Crashes,
    round: Round,
    ghost few: { n ≤ 64 },
    ghost within: { core < 2 ^ n },
}
