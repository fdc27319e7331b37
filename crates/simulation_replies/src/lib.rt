// The reply of the simulated exchange to C: how a drive ends as a struct of numbers, and a refusal beside zeros.
#![tactic(auto)]

ghost use Rattle.std.specs.Prelude.{◌≡◌};
ghost use Rattle.drive_sets.specs.Refusals.{refused, number};
ghost use Rattle.simulated_decisions.specs.Endings.{ending_for};
ghost use Rattle.simulation_replies.specs.Replies.{no_ending, drive_ending, simulation_reply};

use drive_sets::{Pattern, Refusal, Round};
use simulated_decisions::noting::First;

// How a drive ends: the number on which it decides and the round, 0 in both where it does not; `stopped` is 1 for a
// drive that stops, even if it decided before.
#[repr(C)]
#[derive(Clone, Copy)]
pub struct DriveEnding {
    pub number: Pattern,
    pub round: Round,
    pub stopped: u8,
}

// How the drives end, drive 1 first, with zeros behind drive n; the chosen core, and how many of its drives stop.
#[repr(C)]
#[derive(Clone, Copy)]
pub struct SimulationReply {
    pub drives: [DriveEnding; 64],
    pub core: u64,
    pub stops: u8,
    pub refusal: u32,
}

pub fn no_ending() -> DriveEnding
    ensures { result ≡ no_ending }
{
    DriveEnding {
        number: Pattern(0),
        round: Round(0),
        stopped: 0,
    }
}

// How a drive ends, from whether it has a CR, and its first decision.
pub fn ending_of(crashes: bool, first: Option<First>) -> DriveEnding
    ensures { result ≡ drive_ending (ending_for crashes first) }
{
    if crashes {
        return DriveEnding {
            number: Pattern(0),
            round: Round(0),
            stopped: 1,
        };
    }
    match first {
        None => no_ending(),
        Some(First { round, number }) => DriveEnding {
            number,
            round,
            stopped: 0,
        },
    }
}

pub fn refused_simulation(r: Refusal) -> SimulationReply
    ensures { result ≡ simulation_reply (refused (number r)) }
{
    SimulationReply {
        drives: [no_ending(); 64],
        core: 0,
        stops: 0,
        refusal: u32::from(r.number()),
    }
}
