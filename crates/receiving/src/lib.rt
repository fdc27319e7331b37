// The message call: its refusals in document 01's order, then the state with what the message says, which
// `accepted_messages` gives.
#![tactic(auto)]

ghost use Rattle.std.specs.Prelude.{◌≡◌, length};
ghost use Rattle.drive_sets.specs.Refusals.{and_then};
ghost use Rattle.records.specs.Marks.{number_width};
ghost use Rattle.drive_states.specs.Messages.{message_of, checked};
ghost use Rattle.agreement.specs.Calls.{outside_core, admitting, receiving};
ghost use Rattle.exchange.specs.Replies.{Replied};

use accepted_messages::accept;
use drive_sets::Refusal;
use drive_states::Exchange;
use messages::reading;
use records::{Due, Kind};

// 22: sender is oneself, or sender or a known drive is outside the core.
#[tactic(auto, unfolding(agreement::specs::Calls::outside_core, drive_states::specs::Messages::message_of))]
fn outside_core(kind: Kind, x: &Exchange, s: &[u8]) -> bool
    ensures { result ≡ outside_core x.now (message_of kind s.now) }
{
    let sender = reading::sender_of(s);
    sender == x.own
        || !drive_sets::has(sender, x.core)
        || !drive_sets::subset(reading::mask_in(kind, s), x.core)
}

// A whole message of this kind: 22, 26, 24, 21, 25.
#[tactic(auto, unfolding(agreement::specs::Calls::admitting, drive_states::specs::Messages::message_of))]
fn admit(kind: Kind, x: &mut Exchange, s: &[u8]) -> Result<(), Refusal>
    ensures { Replied (admitting x.old (message_of kind s.now)) x.old x.new result }
{
    if outside_core(kind, x, s) {
        return Err(Refusal::OutsideCore);
    }
    if reading::round_of(s) != x.round {
        return Err(Refusal::OtherRound);
    }
    let sender = reading::sender_of(s);
    if !drive_sets::has(sender, x.before) {
        return Err(Refusal::SenderMissing);
    }
    if drive_sets::has(sender, x.heard) {
        return Err(Refusal::AlreadyAccepted);
    }
    accept(kind, x, s)
}

// A message of this kind, from its sender on: 8, 15, values cut (1), 7, and what follows.
#[tactic(auto, unfolding(drive_states::specs::Messages::checked, drive_states::specs::Messages::message_of))]
fn receive(kind: Kind, x: &mut Exchange, s: &[u8]) -> Result<(), Refusal>
    ensures { Replied (and_then (checked x.old.n (number_width kind) (length s.now) (message_of kind s.now)) (admitting x.old)) x.old x.new result }
{
    if !drive_sets::is_drive(x.n, reading::sender_of(s)) {
        return Err(Refusal::DriveNumber);
    }
    if reading::wrong_mask(kind, x.n, s) {
        return Err(Refusal::KnownMask);
    }
    let whole = reading::length_in(kind, s);
    if s.len() < whole {
        return Err(Refusal::EndsTooSoon);
    }
    if whole < s.len() {
        return Err(Refusal::TrailingBytes);
    }
    admit(kind, x, s)
}

// The message call: 28, 23, then mark cut (1), 2, the rest up to the mask of a KN or KW cut (1), and what follows.
#[tactic(auto, unfolding(agreement::specs::Calls::receiving, drive_states::specs::Messages::read_message))]
pub fn message(x: &mut Exchange, s: &[u8]) -> Result<(), Refusal>
    ensures { Replied (receiving x.old s.now) x.old x.new result }
{
    if exchange::is_broken(x) {
        return Err(Refusal::BrokenState);
    }
    if x.halted {
        return Err(Refusal::Halted);
    }
    let kind = records::read_head(s, Due::AtMessage)?;
    receive(kind, x, s)
}
