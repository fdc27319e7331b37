// The state of a drive at its opening, and before any.
ghost use Rattle.std.specs.Prelude.{◌≡◌, cond, ◌-◌, set, replicate};
ghost use Rattle.drive_sets.specs.Masks.{has, single};
ghost use Rattle.drive_states.specs.State.{pattern};
ghost use Rattle.agreement.specs.Calls.{initial};
ghost use Rattle.exchange.specs.Replies.{not_opened};

use drive_sets::{Drive, Pattern, Round};
use drive_states::{Announcement, Decision, Exchange};

// At opening a core drive knows its own number and a listener knows none.
fn own_known(own: Drive, core: u64) -> u64
    ensures { result ≡ cond (has own.0 core) (single own.0) 0 }
{
    if drive_sets::has(own, core) {
        drive_sets::single(own)
    } else {
        0
    }
}

#[tactic(auto, using(drive_sets::specs::Masks::Laws::tested_bounds))]
fn own_numbers(own: Drive, core: u64, number: Pattern) -> [Pattern; 64]
    ensures { result ≡ cond (has own.0 core) (set (replicate 64 (pattern 0)) (own.0 - 1) number) (replicate 64 (pattern 0)) }
{
    let mut numbers = [Pattern(0); 64];
    if drive_sets::has(own, core) {
        numbers[(own.0 - 1) as usize] = number;
    }
    numbers
}

// The state at opening.
#[tactic(auto, unfolding(agreement::specs::Calls::initial))]
pub fn initial(n: u8, core: u64, own: Drive, number: Pattern) -> Exchange
    ensures { result ≡ initial n core own.0 number.0 }
{
    let known = own_known(own, core);
    Exchange {
        n,
        own,
        core,
        round: Round(1),
        before: core,
        heard: 0,
        known,
        start: known,
        numbers: own_numbers(own, core, number),
        announced: Announcement::Absent,
        decision: Decision::Undecided,
        halted: false,
    }
}

// The state of a drive that was never opened, for a controller to hand to its first opening; every other call refuses
// it with 28.
#[tactic(auto, unfolding(crate::specs::Replies::not_opened))]
pub fn never_opened() -> Exchange
    ensures { result ≡ not_opened }
{
    initial(0, 0, Drive(0), Pattern(0))
}
