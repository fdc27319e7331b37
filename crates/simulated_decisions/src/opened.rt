// The openings: each drive of the frame once, from one table.
ghost use Rattle.std.specs.Prelude.{◌≡◌, true, ℕ, ◌≤◌};
ghost use Rattle.drive_sets.specs.Counts.{is_drive};
ghost use Rattle.agreement.specs.Calls.{initial};
ghost use Rattle.drive_states.specs.State.{number_in};
ghost use Rattle.simulated_sends.specs.States.{state_at};

use drive_sets::{Drive, Pattern};
use drive_states::Exchange;

// Here and in `noting` and `running` n is a number, and required to be a frame's: the definitions speak of the number,
// which a type of frames would hide from them.

// The states of the drives 1 to n at opening, where the table has this chosen core.
pub(crate) fn open_all(n: u8, core: u64, numbers: &[Pattern; 64]) -> [Exchange; 64]
    requires { n ≤ 64 }
    ensures { (d : ℕ) → is_drive n d ≡ true → state_at result d ≡ initial n core d (number_in numbers.now d) }
{
    let first = exchange::starting::initial(n, core, Drive(1), Pattern(0));
    let mut all = [first; 64];
    for i in 0..n {
        all[i as usize] = exchange::starting::initial(n, core, Drive(i + 1), numbers[i as usize]);
    }
    all
}
