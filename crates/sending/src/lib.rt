// The message that a core drive sends in a round: KW or DW into the part of the lent buffer from the cursor on.
#![tactic(auto)]

ghost use Rattle.std.specs.Prelude.{◌≡◌, length};
ghost use Rattle.drive_sets.specs.Lent.{written, fitting};
ghost use Rattle.lent_bytes.specs.LentBuffers.{Written};
ghost use Rattle.drive_states.specs.Messages.{message_bytes};
ghost use Rattle.agreement.specs.Calls.{outgoing, sending};

use drive_sets::{PATTERN_BYTES, Refusal};
use drive_states::{Decision, Exchange};
use message_writing::{DECIDE_BYTES, writing};

// An undecided core drive sends KW with all it knew when the round began; a decided one sends DW.
#[tactic(auto, unfolding(agreement::specs::Calls::outgoing, agreement::specs::Calls::content_by, drive_states::specs::State::number_of))]
fn put_message(part: &mut [u8], x: &Exchange)
    ensures { part.new ≡ written (message_bytes (outgoing x.now)) part.old }
{
    match x.decision {
        Decision::Undecided => writing::put_known(part, x.own, x.round, x.start, x.numbers),
        Decision::Decided(v) => writing::put_decide(part, x.own, x.round, v),
    }
}

// How many bytes the message has.
#[tactic(auto, using(drive_states::specs::Messages::Laws::length_known, drive_states::specs::Messages::Laws::length_decided), unfolding(agreement::specs::Calls::outgoing, agreement::specs::Calls::content_by, drive_states::specs::State::number_of, drive_states::specs::Messages::length_in))]
fn outgoing_size(x: &Exchange) -> usize
    ensures { result ≡ length (message_bytes (outgoing x.now)) }
{
    match x.decision {
        Decision::Undecided => 12 + PATTERN_BYTES * drive_sets::size(x.start) as usize,
        Decision::Decided(_) => DECIDE_BYTES,
    }
}

// The message from the starting place on, and nothing where it does not fit: 14.
fn write_message(x: &Exchange, buf: &mut [u8], start: usize) -> Result<usize, Refusal>
    ensures { Written (fitting start (length buf.old) (message_bytes (outgoing x.now))) start buf.old buf.new result }
{
    let size = outgoing_size(x);
    if !lent_bytes::fits(buf.len(), start, size) {
        return Err(Refusal::NoRoom);
    }
    put_message(&mut buf[start..], x);
    Ok(size)
}

// A send: the message of the round into the lent buffer, from the starting place on, touching only its own bytes. 28,
// 23, 27, 14; on a refusal the buffer stays as it was.
#[tactic(auto, unfolding(agreement::specs::Calls::sending, drive_states::specs::State::in_core))]
pub fn send(x: &Exchange, buf: &mut [u8], start: usize) -> Result<usize, Refusal>
    ensures { Written (sending x.now (length buf.old) start) start buf.old buf.new result }
{
    if exchange::is_broken(x) {
        return Err(Refusal::BrokenState);
    }
    if x.halted {
        return Err(Refusal::Halted);
    }
    if !drive_sets::has(x.own, x.core) {
        return Err(Refusal::ListenerSends);
    }
    write_message(x, buf, start)
}
