// Replies to C as numbers: a refusal, 0 for none; how many places of lent memory were filled; a flag.
#![tactic(auto)]

ghost use Rattle.std.specs.Prelude.{◌≡◌};
ghost use Rattle.drive_sets.specs.Refusals.{refused, outcome, number};
ghost use Rattle.c_replies.specs.Replies.{refusal_in, size_reply, flag_of};

use drive_sets::Refusal;

// How many sets or bytes were put into lent memory.
#[repr(C)]
#[derive(Clone, Copy)]
pub struct SizeReply {
    pub size: usize,
    pub refusal: u32,
}

// The number of a refusal, and 0 where there is none.
pub fn refusal_of<T: Copy>(r: Result<T, Refusal>) -> u32
    ensures { result ≡ refusal_in r }
{
    match r {
        Ok(_) => 0,
        Err(q) => u32::from(q.number()),
    }
}

pub fn refused_size(r: Refusal) -> SizeReply
    ensures { result ≡ size_reply (refused (number r)) }
{
    SizeReply {
        size: 0,
        refusal: u32::from(r.number()),
    }
}

// What a writer answers.
pub fn written_size(w: Result<usize, Refusal>) -> SizeReply
    ensures { result ≡ size_reply (outcome w) }
{
    SizeReply {
        size: w.unwrap_or(0),
        refusal: refusal_of(w),
    }
}

// 1 for true.
pub fn flag(b: bool) -> u8
    ensures { result ≡ flag_of b }
{
    u8::from(b)
}
