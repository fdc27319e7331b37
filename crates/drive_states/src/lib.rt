// The state that a drive keeps from call to call in an exchange. No code: the calls that work on it stand in the crates
// `exchange`, `sending` and `receiving`, above what is stated and proved of them.
#![tactic(auto)]

use drive_sets::{Drive, Pattern, Round};

// What a drive has decided on. Its variants are words of the theorems of `agreement`, so it is an enum of its own.
#[derive(Clone, Copy)]
pub enum Decision {
    Undecided,
    Decided(Pattern),
}

// The decision that the lowest-numbered sender of a DC or DW announced in this round: the sender and its decision. Its
// variants are words of the theorems of `agreement`, so it is an enum of its own.
#[derive(Clone, Copy)]
pub enum Announcement {
    Absent,
    By(Drive, Pattern),
}

// The state of one drive.
#[derive(Clone, Copy)]
pub struct Exchange {
    // The drives of the frame.
    pub n: u8,
    // The drive whose state this is.
    pub own: Drive,
    // The chosen core: its drives talk, the others listen.
    pub core: u64,
    // The round that the drive is in; the last one after it has halted.
    pub round: Round,
    // The drives heard in the round before, oneself among them if in the core; at first the core.
    pub before: u64,
    // The senders accepted in this round.
    pub heard: u64,
    // The drives whose pattern numbers are known now.
    pub known: u64,
    // The drives whose pattern numbers were known when the round began: what is sent.
    pub start: u64,
    // The pattern numbers, drive 1 first; one counts where its drive is known.
    pub numbers: [Pattern; 64],
    // The decision announced in this round.
    pub announced: Announcement,
    // The drive's own decision.
    pub decision: Decision,
    // The drive has ended its part: every further call is refused.
    pub halted: bool,
}
