// The calls given n and sets or groups, and the one given n and t: the writer, the cores, the way back, the table from
// n and t, the first set that a group misses and the verdict.
ghost use Rattle.std.specs.Prelude.{◌≡◌, length};
ghost use Rattle.drive_sets.specs.Refusals.{and_then};
ghost use Rattle.survivor_tables.specs.Tables.{core_list, missed_set, survivor_sets};
ghost use Rattle.table_writing.specs.Writing.{write_table};
ghost use Rattle.threshold.specs.Threshold.{threshold_list};
ghost use Rattle.drive_sets.specs.Lent.{fitting, size_written, buffer_after};
ghost use Rattle.verdicts.specs.Calls.{verdict};
ghost use Rattle.c_replies.specs.Replies.{size_reply};
ghost use Rattle.table_calls.specs.Replies.{missed_reply, verdict_reply};

use c_replies::SizeReply;
use table_replies::lists;
use verdict_search::Verdict;

// The position of the first set that a group misses, 0 for none.
#[repr(C)]
#[derive(Clone, Copy)]
pub struct MissedReply {
    pub position: usize,
    pub refusal: u32,
}

// The verdict on k: `shared` is 1 for a yes. For a no the first k positions and blocks; all other places are 0.
#[repr(C)]
#[derive(Clone, Copy)]
pub struct VerdictReply {
    pub blocks: [u64; 4],
    pub positions: [u8; 4],
    pub shared: u8,
    pub refusal: u32,
}

// The normal table of n drives and some sets into buf, from the starting place on; how many bytes. 3, 2, 5, 4, 13, 14.
#[unsafe(no_mangle)]
pub extern "C" fn regdulyn_write_table(
    n: u8,
    sets: &[u64],
    buf: &mut [u8],
    start: usize,
) -> SizeReply
    ensures value { result ≡ size_reply (size_written (and_then (write_table n sets.now) (fitting start (length buf.old)))) }
    ensures buf_after { buf.new ≡ buffer_after (and_then (write_table n sets.now) (fitting start (length buf.old))) start buf.old }
{
    c_replies::written_size(table_writing::write_table(n, sets, buf, start))
}

// The cores of a table of n drives and some sets over the first places of out; how many there are. 3, 2, 5, 4, 13, 14.
#[unsafe(no_mangle)]
pub extern "C" fn regdulyn_cores(n: u8, sets: &[u64], out: &mut [u64]) -> SizeReply
    ensures value { result ≡ size_reply (size_written (and_then (core_list n sets.now) (fitting 0 (length out.old)))) }
    ensures out_after { out.new ≡ buffer_after (and_then (core_list n sets.now) (fitting 0 (length out.old))) 0 out.old }
{
    match complete_tables::accept(n, sets) {
        Err(r) => c_replies::refused_size(r),
        Ok(t) => lists::put_list(t.cores.as_slice(), out),
    }
}

// Back: the smallest groups of n drives that meet each of the groups, over the first places of out; how many there are.
// 3, 13, 4, 5, 14.
#[unsafe(no_mangle)]
pub extern "C" fn regdulyn_back(n: u8, groups: &[u64], out: &mut [u64]) -> SizeReply
    ensures value { result ≡ size_reply (size_written (and_then (survivor_sets n groups.now) (fitting 0 (length out.old)))) }
    ensures out_after { out.new ≡ buffer_after (and_then (survivor_sets n groups.now) (fitting 0 (length out.old))) 0 out.old }
{
    lists::put_listed(tables::calls::survivor_sets(n, groups), out)
}

// The table from n and t, all groups of n - t drives, over the first places of out; how many sets it has. 3, 31, 32,
// 13, 14.
#[unsafe(no_mangle)]
pub extern "C" fn regdulyn_threshold(n: u8, t: u8, out: &mut [u64]) -> SizeReply
    ensures value { result ≡ size_reply (size_written (and_then (threshold_list n t) (fitting 0 (length out.old)))) }
    ensures out_after { out.new ≡ buffer_after (and_then (threshold_list n t) (fitting 0 (length out.old))) 0 out.old }
{
    lists::put_listed(threshold::threshold_sets(n, t), out)
}

// The first set of the normal table of n drives and some sets that a group misses. 3, 2, 5, 4, 13, then 4 of the group.
#[unsafe(no_mangle)]
pub extern "C" fn regdulyn_missed(n: u8, sets: &[u64], group: u64) -> MissedReply
    ensures { result ≡ missed_reply (missed_set n sets.now group) }
{
    match tables::calls::missed_set(n, sets, group) {
        Err(r) => MissedReply {
            position: 0,
            refusal: u32::from(r.number()),
        },
        Ok(first) => MissedReply {
            position: first.unwrap_or(0),
            refusal: 0,
        },
    }
}

// The verdict on k of the table of n drives and some sets: 12, 3, 2, 5, 4, 13, 33.
#[unsafe(no_mangle)]
pub extern "C" fn regdulyn_verdict(k: u8, n: u8, sets: &[u64]) -> VerdictReply
    ensures { result ≡ verdict_reply (verdict k n sets.now) }
{
    let none = VerdictReply {
        blocks: [0u64; 4],
        positions: [0u8; 4],
        shared: 0,
        refusal: 0,
    };
    match verdicts::calls::judge(k, n, sets) {
        Err(r) => VerdictReply {
            refusal: u32::from(r.number()),
            ..none
        },
        Ok(Verdict::Yes) => VerdictReply { shared: 1, ..none },
        Ok(Verdict::No { positions, blocks }) => VerdictReply {
            blocks,
            positions,
            ..none
        },
    }
}
