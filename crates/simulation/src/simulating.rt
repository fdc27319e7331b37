// The simulated exchange as a call. The crashes are handed over by drive, as the run file reader gives them: at most
// one to a drive, rising.
ghost use Rattle.std.specs.Prelude.{◌≡◌, take};
ghost use Rattle.drive_sets.specs.Refusals.{yields};
ghost use Rattle.survivor_tables.specs.Tables.{chosen_core};
ghost use Rattle.runs.specs.Scenario.{Scenario};
ghost use Rattle.drive_crashes.specs.Crashes.{crashes_in};
ghost use Rattle.drive_states.specs.State.{values};
ghost use Rattle.simulation.specs.Simulation.{checked_crashes, simulated_of, unless_touched, simulated};
ghost use Rattle.simulated_decisions.specs.Arguments.{Told};
ghost use Rattle.simulation.specs.Endings.{told_by, simulated_outcome};

use crate::checking;
use drive_crashes::Crashes;
use drive_sets::{Pattern, Refusal};
use simulated_decisions::noting::Notes;
use simulated_decisions::running;
use survivor_tables::missed::first_missed;

// How the drives end: a drive with a CR is stopped, and the first decisions of the others; the core, and f.
#[derive(Clone, Copy)]
pub struct Simulated {
    pub crashed: u64,
    pub found: Notes,
    pub core: u64,
    pub stops: u8,
}

// The simulated exchange of an accepted table with this core, where the crashes pass.
fn result_on(n: u8, core: u64, numbers: &[Pattern; 64], crashes: &Crashes) -> Simulated
    ensures { (s : Scenario) → Told n core numbers.now crashes.now s → told_by n result ≡ simulated_of s }
{
    Simulated {
        crashed: crashes.crashed,
        found: running::first_decisions(n, core, numbers, crashes),
        core,
        stops: drive_sets::size(core & crashes.crashed) as u8,
    }
}

// The simulated exchange: from n and sets, the pattern numbers, drive 1 first, with any for a listener, and the
// crashes. The table's refusals, then 8, 9 and 10 of each crash, then 11.
pub fn simulate(
    n: u8,
    sets: &[u64],
    numbers: [Pattern; 64],
    crashes: Crashes,
) -> Result<Simulated, Refusal>
    ensures { simulated_outcome n result ≡ simulated n sets.now (take n (values numbers)) (crashes_in crashes) }
{
    let core = tables::calls::chosen_core(n, sets)?;
    checking::check_all(n, core, &crashes)?;
    if first_missed(sets, crashes.crashed).is_none() {
        return Err(Refusal::NoneUntouched);
    }
    Ok(result_on(n, core, &numbers, &crashes))
}
