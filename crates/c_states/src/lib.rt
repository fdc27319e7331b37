// The state of a drive for C, as a struct of numbers, and back, and the reply to a call that was handed one.
#![tactic(auto)]

ghost use Rattle.std.specs.Prelude.{◌≡◌};
ghost use Rattle.drive_sets.specs.Refusals.{outcome_of};
ghost use Rattle.c_states.specs.Crossing.{announcement_in, decision_in, exchange_of, announced_flag, announced_drive, announced_number, decided_flag, decided_number, state_of, answered};

use drive_sets::{Drive, Pattern, Refusal, Round};
use drive_states::{Announcement, Decision, Exchange};

// The state of one drive, without gaps between its numbers. A flag is set where it is not 0; a call that is accepted
// gives it as 0 or 1.
#[repr(C)]
#[derive(Clone, Copy)]
pub struct State {
    // The chosen core: its drives talk, the others listen.
    pub core: u64,
    // The drives heard in the round before, oneself among them if in the core; at first the core.
    pub before: u64,
    // The senders accepted in this round.
    pub heard: u64,
    // The drives whose pattern numbers are known now.
    pub known: u64,
    // The drives whose pattern numbers were known when the round began: what is sent.
    pub start: u64,
    // The pattern numbers, drive 1 first; one counts where its drive is known.
    pub numbers: [Pattern; 64],
    // The number announced in this round by a DW or DC, where `announced` is set.
    pub told: Pattern,
    // The drive's own decision, where `decided` is set.
    pub decision: Pattern,
    // The drives of the frame.
    pub n: u8,
    // The drive whose state this is.
    pub own: Drive,
    // The round that the drive is in; the last one after it has halted.
    pub round: Round,
    // A flag: a DW or DC came in this round.
    pub announced: u8,
    // Its sender, the lowest of several.
    pub by: Drive,
    // A flag: the drive has decided.
    pub decided: u8,
    // A flag: the drive has ended its part, and every further call but an opening is refused.
    pub halted: u8,
    // Read by no call, and 0 in what an accepted call gives: so that no bytes of the struct lie between its fields.
    pub reserved: [u8; 1],
}

// What a call that is handed a state gives: the new state, or the refusal's number and the state as it was handed.
#[repr(C)]
#[derive(Clone, Copy)]
pub struct StateReply {
    pub state: State,
    // 0 for none.
    pub refusal: u32,
}

// ---- from numbers

fn announcement_in(s: State) -> Announcement
    ensures { result ≡ announcement_in s }
{
    if s.announced == 0 {
        return Announcement::Absent;
    }
    Announcement::By(s.by, s.told)
}

fn decision_in(s: State) -> Decision
    ensures { result ≡ decision_in s }
{
    if s.decided == 0 {
        return Decision::Undecided;
    }
    Decision::Decided(s.decision)
}

// The state that the numbers say.
pub fn exchange_of(s: State) -> Exchange
    ensures { result ≡ exchange_of s }
{
    let numbers = s.numbers;
    Exchange {
        n: s.n,
        own: s.own,
        core: s.core,
        round: s.round,
        before: s.before,
        heard: s.heard,
        known: s.known,
        start: s.start,
        numbers,
        announced: announcement_in(s),
        decision: decision_in(s),
        halted: s.halted != 0,
    }
}

// ---- to numbers

fn announced_flag(a: Announcement) -> u8
    ensures { result ≡ announced_flag a }
{
    match a {
        Announcement::Absent => 0,
        Announcement::By(_, _) => 1,
    }
}

fn announced_drive(a: Announcement) -> Drive
    ensures { result ≡ announced_drive a }
{
    match a {
        Announcement::Absent => Drive(0),
        Announcement::By(d, _) => d,
    }
}

fn announced_number(a: Announcement) -> Pattern
    ensures { result ≡ announced_number a }
{
    match a {
        Announcement::Absent => Pattern(0),
        Announcement::By(_, v) => v,
    }
}

fn decided_flag(d: Decision) -> u8
    ensures { result ≡ decided_flag d }
{
    match d {
        Decision::Undecided => 0,
        Decision::Decided(_) => 1,
    }
}

fn decided_number(d: Decision) -> Pattern
    ensures { result ≡ decided_number d }
{
    match d {
        Decision::Undecided => Pattern(0),
        Decision::Decided(v) => v,
    }
}

// The state as numbers; what does not count is 0.
pub fn state_of(x: &Exchange) -> State
    ensures { result ≡ state_of x.now }
{
    State {
        core: x.core,
        before: x.before,
        heard: x.heard,
        known: x.known,
        start: x.start,
        numbers: x.numbers,
        told: announced_number(x.announced),
        decision: decided_number(x.decision),
        n: x.n,
        own: x.own,
        round: x.round,
        announced: announced_flag(x.announced),
        by: announced_drive(x.announced),
        decided: decided_flag(x.decision),
        halted: c_replies::flag(x.halted),
        reserved: [0u8; 1],
    }
}

// ---- replies

// A refusal hands the state back as it came, whatever its flags and its reserved bytes are.
pub fn state_reply(s: State, r: Result<(), Refusal>, y: &Exchange) -> StateReply
    ensures { result ≡ answered s (outcome_of r y.now) }
{
    match r {
        Err(r) => StateReply {
            state: s,
            refusal: u32::from(r.number()),
        },
        Ok(()) => StateReply {
            state: state_of(y),
            refusal: 0,
        },
    }
}
