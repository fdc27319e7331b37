// The close of a round: what was heard, the decision, whether the drive halts, and the state after it.
ghost use Rattle.std.specs.Prelude.{◌≡◌, not, ◌&&◌, cond, ◌≤◌, ◌+◌};
ghost use Rattle.drive_sets.specs.Lists.{smallest};
ghost use Rattle.drive_sets.specs.Masks.{drives};
ghost use Rattle.drive_states.specs.State.{in_core, number_of, is_decided};
ghost use Rattle.agreement.specs.Calls.{heard_at_close, decision_on, stable_decision, decision_after, halts, next, closing};
ghost use Rattle.exchange.specs.Replies.{Replied};

use crate::is_broken;
use drive_sets::{Pattern, Refusal, Round};
use drive_states::{Announcement, Decision, Exchange};

// Heard at a close: the senders accepted, and oneself if in the core.
#[tactic(auto, unfolding(agreement::specs::Calls::heard_at_close, drive_states::specs::State::in_core))]
fn heard_at_close(x: &Exchange) -> u64
    ensures { result ≡ heard_at_close x.now }
{
    if drive_sets::has(x.own, x.core) {
        return drive_sets::insert(x.heard, x.own);
    }
    x.heard
}

// The decision on the smallest pattern number known; none where none is known.
#[tactic(auto, using(drive_sets::specs::Loops::Drives::lowest_bounds, drive_sets::specs::Loops::Drives::taken, drive_sets::specs::Loops::Drives::taken_fewer), unfolding(drive_states::specs::State::number_of, drive_states::specs::State::number_in))]
fn smallest_known(x: &Exchange) -> Decision
    ensures { result ≡ decision_on (smallest (number_of x.now) (drives x.now.known)) }
{
    if x.known == 0 {
        return Decision::Undecided;
    }
    let first = drive_sets::lowest(x.known);
    let mut best = x.numbers[(first.0 - 1) as usize];
    let mut m = drive_sets::without_lowest(x.known);
    while m != 0 {
        let d = drive_sets::lowest(m);
        let v = x.numbers[(d.0 - 1) as usize];
        m = drive_sets::without_lowest(m);
        best = Pattern(best.0.min(v.0));
    }
    Decision::Decided(best)
}

// Where heard is not empty and equals the round before, the smallest pattern number known.
#[tactic(auto, unfolding(agreement::specs::Calls::stable_decision, agreement::specs::Calls::stable))]
fn stable_decision(x: &Exchange) -> Decision
    ensures { result ≡ stable_decision x.now }
{
    let heard = heard_at_close(x);
    if heard == 0 {
        return Decision::Undecided;
    }
    if heard != x.before {
        return Decision::Undecided;
    }
    smallest_known(x)
}

// A decided drive keeps its number; for the others the announced decision comes first.
#[tactic(auto, unfolding(agreement::specs::Calls::decision_after, agreement::specs::Calls::decide))]
fn decision_after(x: &Exchange) -> Decision
    ensures { result ≡ decision_after x.now }
{
    match (x.decision, x.announced) {
        (Decision::Decided(v), _) => Decision::Decided(v),
        (Decision::Undecided, Announcement::By(_, v)) => Decision::Decided(v),
        (Decision::Undecided, Announcement::Absent) => stable_decision(x),
    }
}

#[tactic(auto, unfolding(drive_states::specs::State::is_decided))]
fn is_decided(d: Decision) -> bool
    ensures { result ≡ is_decided d }
{
    matches!(d, Decision::Decided(_))
}

// A listener halts on deciding.
#[tactic(auto, unfolding(drive_states::specs::State::in_core))]
fn listener_decides(x: &Exchange) -> bool
    ensures { result ≡ (not (in_core x.now) && is_decided (decision_after x.now)) }
{
    !drive_sets::has(x.own, x.core) && is_decided(decision_after(x))
}

// The drive halts at this close.
#[tactic(auto, unfolding(agreement::specs::Calls::halts))]
fn halts(x: &Exchange) -> bool
    ensures { result ≡ halts x.now }
{
    is_decided(x.decision) || listener_decides(x) || x.round.0 as u32 == drive_sets::size(x.core)
}

// A halted drive keeps its round number.
fn next_round(round: Round, ends: bool) -> Round
    requires { round.0 ≤ 64 }
    ensures { result.0 ≡ cond ends round.0 (round.0 + 1) }
{
    if ends { round } else { Round(round.0 + 1) }
}

// Leaves the state after a close.
#[tactic(auto, unfolding(agreement::specs::Calls::next))]
fn advance(x: &mut Exchange)
    requires { x.old.round.0 ≤ 64 }
    ensures { x.new ≡ next x.old }
{
    let ends = halts(x);
    let decision = decision_after(x);
    x.before = heard_at_close(x);
    x.round = next_round(x.round, ends);
    x.heard = 0;
    x.start = x.known;
    x.announced = Announcement::Absent;
    x.decision = decision;
    x.halted = ends;
}

// The close of a round: 28, 23.
#[tactic(auto, using(crate::proofs::Rules::unbroken_round), unfolding(agreement::specs::Calls::closing))]
pub fn close(x: &mut Exchange) -> Result<(), Refusal>
    ensures { Replied (closing x.old) x.old x.new result }
{
    if is_broken(x) {
        return Err(Refusal::BrokenState);
    }
    if x.halted {
        return Err(Refusal::Halted);
    }
    advance(x);
    Ok(())
}
