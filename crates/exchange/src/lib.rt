// One drive's part in an exchange, which is one instance of consensus by SyncCrash: the rules that its state keeps, its
// first state and the close of a round. The opening, the send and the message call are the crates `opening`, `sending`
// and `receiving`. What each call gives is defined, and shown to reach agreement, in the crate `agreement`.
//
// A call is lent the drive's state. Where it is accepted it leaves the new state there, and where it is refused the
// state as it was (`Replied`).
#![tactic(auto)]

ghost use Rattle.std.specs.Prelude.{◌≡◌, not, ◌&&◌};
ghost use Rattle.drive_sets.specs.Masks.{has, subset};
ghost use Rattle.drive_states.specs.State.{in_core, broken};

use drive_states::Exchange;

pub mod closing;
pub mod starting;

// A core drive that does not know its own number, now or at the round's start.
#[tactic(auto, using(drive_sets::specs::Masks::Laws::has_common), unfolding(drive_sets::specs::Masks::common, drive_states::specs::State::in_core))]
fn forgets_own(x: &Exchange) -> bool
    ensures { result ≡ (in_core x.now && not (has x.now.own.0 x.now.known && has x.now.own.0 x.now.start)) }
{
    drive_sets::has(x.own, x.core) && !drive_sets::has(x.own, x.known & x.start)
}

// The four sets of a state are in the core.
#[tactic(auto, using(crate::proofs::Rules::four_inside), unfolding(drive_sets::specs::Masks::union))]
fn all_inside(x: &Exchange) -> bool
    ensures { result ≡ (subset x.now.before x.now.core && subset x.now.heard x.now.core && subset x.now.known x.now.core && subset x.now.start x.now.core) }
{
    drive_sets::subset(x.before | x.heard | x.known | x.start, x.core)
}

// 28: the state breaks a rule.
#[tactic(auto, unfolding(drive_states::specs::State::broken))]
pub fn is_broken(x: &Exchange) -> bool
    ensures { result ≡ broken x.now }
{
    !survivor_tables::frames::is_frame(x.n)
        || !survivor_tables::frames::is_set(x.n, x.core)
        || forgets_own(x)
        || !drive_sets::is_drive(x.n, x.own)
        || !drive_sets::is_round(x.core, x.round)
        || !all_inside(x)
}
