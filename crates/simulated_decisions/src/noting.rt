// The first decision of each drive, with its round.
ghost use Rattle.std.specs.Prelude.{◌≡◌, true, None, ℕ, ◌≤◌};
ghost use Rattle.drive_sets.specs.Counts.{is_drive};
ghost use Rattle.agreement.specs.RoundEndings.{undecided};
ghost use Rattle.agreement.specs.Canonical.{ending_on};
ghost use Rattle.simulated_sends.specs.States.{state_at};
ghost use Rattle.simulated_decisions.specs.Endings.{first_of, ending_by, found_of, nothing_found, or_later};

use drive_sets::{Pattern, Round};
use drive_states::{Decision, Exchange};

// A drive's first decision: its round and the pattern number.
#[derive(Clone, Copy)]
pub struct First {
    pub round: Round,
    pub number: Pattern,
}

// For each drive, drive 1 first, its first decision, if it has decided.
pub type Notes = [Option<First>; 64];

// Nothing found yet.
pub fn nothing() -> Notes
    ensures { result ≡ nothing_found }
{
    [None; 64]
}

// What was found of a drive, with its decision after this round.
fn first_decision(was: Option<First>, decision: Decision, round: Round) -> Option<First>
    ensures { ending_by result ≡ or_later (ending_by was) (ending_on decision round.0 undecided) }
{
    match (was, decision) {
        (Some(first), _) => Some(first),
        (None, Decision::Decided(number)) => Some(First { round, number }),
        (None, Decision::Undecided) => None,
    }
}

// What was found of the drives 1 to n, with their states after this round.
pub(crate) fn note_all(found: &mut Notes, states: &[Exchange; 64], n: u8, round: Round)
    requires { n ≤ 64 }
    ensures { (d : ℕ) → is_drive n d ≡ true → found_of found.new d ≡ or_later (found_of found.old d) (ending_on (state_at states.now d).decision round.0 undecided) }
{
    for i in 0..n as usize {
        found[i] = first_decision(found[i], states[i].decision, round);
    }
}

// Each of the drives 1 to n has decided.
pub(crate) fn all_decided(found: &Notes, n: u8) -> bool
    requires { n ≤ 64 }
    ensures { result ≡ true → (d : ℕ) → is_drive n d ≡ true → first_of found.now d ≡ None → ⊥ }
{
    found[..n as usize].iter().all(|first| first.is_some())
}
