// The simulated exchange: how each drive of a scenario ends.
ghost use Rattle.std.specs.Prelude.{◌≡◌, map, ◌≤◌, OnOk, take};
ghost use Rattle.drive_sets.specs.Limits.{max_drives};
ghost use Rattle.drive_sets.specs.Lists.{range};
ghost use Rattle.drive_states.specs.State.{values};
ghost use Rattle.drive_crashes.specs.Crashes.{crashes_in};
ghost use Rattle.simulation.specs.Simulation.{simulated};
ghost use Rattle.simulation.specs.Endings.{simulated_outcome};
ghost use Rattle.run_listing.specs.RunListing.{simulated_with};
ghost use Rattle.simulated_decisions.specs.Endings.{ending_at};
ghost use Rattle.simulation_replies.specs.Replies.{in_drives, simulation_reply};
ghost use Rattle.run_calls.specs.Simulations.{crashes_of};

use drive_crashes::Crashes;
use drive_sets::{Drive, Pattern, Refusal, Round};
use run_listing::programs::simulate_with;
use simulation::simulating::{Simulated, simulate};
use simulation_replies::{DriveEnding, SimulationReply, ending_of, no_ending, refused_simulation};

// What the core drives propose, drive 1 first, with any number for a listener, and which drives stop: of each such
// drive d, at place d - 1, the round and the sends that it still makes.
#[repr(C)]
#[derive(Clone, Copy)]
pub struct Scenario {
    pub stopped: u64,
    pub numbers: [Pattern; 64],
    pub rounds: [Round; 64],
    pub sends: [u8; 64],
}

// How the drives 1 to n end, with zeros behind them.
fn endings_of(n: u8, s: &Simulated) -> [DriveEnding; 64]
    requires { n ≤ max_drives }
    ensures { result ≡ in_drives (map (ending_at s.now.crashed s.now.found) (range 1 n)) }
{
    let mut drives = [no_ending(); 64];
    for i in 0..n {
        let first = s.found[i as usize];
        drives[i as usize] = ending_of(drive_sets::has(Drive(i + 1), s.crashed), first);
    }
    drives
}

// What the simulated exchange of n drives gave.
fn simulation_reply(n: u8, r: Result<Simulated, Refusal>) -> SimulationReply
    requires { OnOk r (n ≤ max_drives) }
    ensures { result ≡ simulation_reply (simulated_outcome n r) }
{
    match r {
        Err(q) => refused_simulation(q),
        Ok(s) => {
            let drives = endings_of(n, &s);
            SimulationReply {
                drives,
                core: s.core,
                stops: s.stops,
                refusal: 0,
            }
        }
    }
}

// The simulated exchange of n drives with some survivor sets in a scenario: 3, 2, 5, 4, 13, then 8, 9, 10 of each stop,
// then 11.
#[unsafe(no_mangle)]
pub extern "C" fn regdulyn_simulate(n: u8, sets: &[u64], s: Scenario) -> SimulationReply
    ensures { result ≡ simulation_reply (simulated n sets.now (take n (values s.numbers)) (crashes_in (crashes_of s))) }
{
    let rounds = s.rounds;
    let sends = s.sends;
    let crashes = Crashes {
        crashed: s.stopped,
        rounds,
        sends,
    };
    simulation_reply(n, simulate(n, sets, s.numbers, crashes))
}

// The same of a run file, given by its bytes: the table's refusals, then those of the file.
#[unsafe(no_mangle)]
pub extern "C" fn regdulyn_simulate_file(n: u8, sets: &[u64], run: &[u8]) -> SimulationReply
    ensures { result ≡ simulation_reply (simulated_with n sets.now run.now) }
{
    simulation_reply(n, simulate_with(n, sets, run))
}
