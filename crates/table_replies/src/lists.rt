// Lists of sets put into lent memory.
ghost use Rattle.std.specs.Prelude.{◌≡◌, length};
ghost use Rattle.drive_sets.specs.Lent.{fitting, size_written, buffer_after};
ghost use Rattle.drive_sets.specs.Refusals.{and_then, outcome};
ghost use Rattle.tables.specs.Answers.{list_outcome};
ghost use Rattle.c_replies.specs.Replies.{size_reply};

use c_replies::SizeReply;
use drive_sets::Refusal;
use survivor_tables::frames::SetList;

// The sets over the first places of out; how many they are. 14 where there are too few places.
pub(crate) fn put(sets: &[u64], out: &mut [u64]) -> Result<usize, Refusal>
    ensures value { outcome result ≡ size_written (fitting 0 (length out.old) sets.now) }
    ensures out_after { out.new ≡ buffer_after (fitting 0 (length out.old) sets.now) 0 out.old }
{
    if out.len() < sets.len() {
        return Err(Refusal::NoRoom);
    }
    out[..sets.len()].copy_from_slice(sets);
    Ok(sets.len())
}

// The same as a reply.
pub fn put_list(sets: &[u64], out: &mut [u64]) -> SizeReply
    ensures value { result ≡ size_reply (size_written (fitting 0 (length out.old) sets.now)) }
    ensures out_after { out.new ≡ buffer_after (fitting 0 (length out.old) sets.now) 0 out.old }
{
    c_replies::written_size(put(sets, out))
}

// What a call gives that gives a list of sets: its refusal, or the sets.
pub fn put_listed(list: Result<SetList, Refusal>, out: &mut [u64]) -> SizeReply
    ensures value { result ≡ size_reply (size_written (and_then (list_outcome list) (fitting 0 (length out.old)))) }
    ensures out_after { out.new ≡ buffer_after (and_then (list_outcome list) (fitting 0 (length out.old))) 0 out.old }
{
    match list {
        Err(r) => c_replies::refused_size(r),
        Ok(sets) => put_list(sets.as_slice(), out),
    }
}
