// One drive's part in an exchange for C: the state goes in and comes back by value, as a struct of numbers. A refusal
// hands it back as it came. The header `include/regdulyn.h` declares what stands here.
#![tactic(auto)]

ghost use Rattle.std.specs.Prelude.{◌≡◌, length};
ghost use Rattle.drive_sets.specs.Lent.{buffer_after};
ghost use Rattle.c_states.specs.Crossing.{exchange_of};
ghost use Rattle.controller.specs.Receivers.{send_list, list_reply};
ghost use Rattle.controller.specs.Replies.{state_version, unopened_state, open_reply, message_reply, close_reply, send_reply, send_buffer};

use c_replies::SizeReply;
use c_states::{State, StateReply};
use drive_sets::{Drive, Pattern};

mod receivers;

// Raised when the layout of the state changes.
const STATE_VERSION: u32 = 2;

// The version of the state's layout, to be compared with the header's.
#[tactic(auto, unfolding(crate::specs::Replies::state_version))]
#[unsafe(no_mangle)]
pub extern "C" fn regdulyn_state_version() -> u32
    ensures { result ≡ state_version }
{
    STATE_VERSION
}

// The state of a drive that was never opened, for its first opening; every other call refuses it with 28.
#[tactic(auto, unfolding(crate::specs::Replies::unopened_state))]
#[unsafe(no_mangle)]
pub extern "C" fn regdulyn_unopened() -> State
    ensures { result ≡ unopened_state }
{
    c_states::state_of(&exchange::starting::never_opened())
}

// An opening from a table, a drive number and a pattern number: the table's refusals, then 8.
#[tactic(auto, unfolding(crate::specs::Replies::open_reply))]
#[unsafe(no_mangle)]
pub extern "C" fn regdulyn_open(s: State, n: u8, sets: &[u64], own: u8, number: u32) -> StateReply
    ensures { result ≡ open_reply s n sets.now own number }
{
    let mut x = c_states::exchange_of(s);
    let r = opening::open(&mut x, n, sets, Drive(own), Pattern(number));
    c_states::state_reply(s, r, &x)
}

// The message call: 28, 23, those of the bytes, then 22, 26, 24, 21, 25.
#[tactic(auto, unfolding(crate::specs::Replies::message_reply))]
#[unsafe(no_mangle)]
pub extern "C" fn regdulyn_message(s: State, bytes: &[u8]) -> StateReply
    ensures { result ≡ message_reply s bytes.now }
{
    let mut x = c_states::exchange_of(s);
    let r = receiving::message(&mut x, bytes);
    c_states::state_reply(s, r, &x)
}

// The close of a round: 28, 23.
#[tactic(auto, unfolding(crate::specs::Replies::close_reply))]
#[unsafe(no_mangle)]
pub extern "C" fn regdulyn_close(s: State) -> StateReply
    ensures { result ≡ close_reply s }
{
    let mut x = c_states::exchange_of(s);
    let r = exchange::closing::close(&mut x);
    c_states::state_reply(s, r, &x)
}

// A send: the message of the round into the lent buffer, from the starting place on, touching only its own bytes. 28,
// 23, 27, 14; on a refusal the buffer stays as it was.
#[tactic(auto, unfolding(crate::specs::Replies::send_reply, crate::specs::Replies::send_buffer))]
#[unsafe(no_mangle)]
pub extern "C" fn regdulyn_send(s: State, buf: &mut [u8], start: usize) -> SizeReply
    ensures value { result ≡ send_reply s (length buf.old) start }
    ensures buf_after { buf.new ≡ send_buffer s start buf.old }
{
    let x = c_states::exchange_of(s);
    c_replies::written_size(sending::send(&x, buf, start))
}

// The drives to which the message of the round goes, in the order of the sends, over the first places of out: the other
// core drives by rising number, then the listeners by rising number. 28, 23, 27, 14; on a refusal out stays as it was.
#[tactic(auto, unfolding(crate::specs::Receivers::list_reply))]
#[unsafe(no_mangle)]
pub extern "C" fn regdulyn_send_list(s: State, out: &mut [u8]) -> SizeReply
    ensures value { result ≡ list_reply s (length out.old) }
    ensures out_after { out.new ≡ buffer_after (send_list (exchange_of s) (length out.old)) 0 out.old }
{
    let x = c_states::exchange_of(s);
    c_replies::written_size(receivers::send_list(&x, out))
}
