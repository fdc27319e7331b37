// The library's calls about fault lists for programs in C: a slice passes as a pointer and a length, and a reply comes
// back by value, as a struct of numbers whose `refusal` is 0 where the call is accepted. Beside a refusal the rest of a
// reply is 0, and lent memory is as it was.
#![tactic(auto)]

ghost use Rattle.std.specs.Prelude.{◌≡◌, length};
ghost use Rattle.drive_sets.specs.Lent.{fitting, size_written, buffer_after};
ghost use Rattle.drive_sets.specs.Refusals.{and_then};
ghost use Rattle.c_replies.specs.Replies.{size_reply};
ghost use Rattle.table_replies.specs.Replies.{table_reply, fitting_table, sets_read};
ghost use Rattle.fault_lists.specs.FaultLists.{table_from_faults, faults_from_table};
ghost use Rattle.fault_files.specs.FaultFiles.{read_faults, write_faults};

use c_replies::SizeReply;
use table_replies::lists;
use table_replies::reading::{TableReply, put_table, refused_table};

// The fault list that the bytes are, its largest groups over the first places of out. Left to right 1 to 5 and 34, 6,
// then 7, 13, 14.
#[unsafe(no_mangle)]
pub extern "C" fn regdulyn_read_faults(s: &[u8], out: &mut [u64]) -> TableReply
    ensures value { result ≡ table_reply s.now (fitting_table out.old (read_faults s.now)) }
    ensures out_after { out.new ≡ buffer_after (sets_read (fitting_table out.old (read_faults s.now))) 0 out.old }
{
    match fault_files::read_faults(s) {
        Err(r) => refused_table(r),
        Ok(list) => put_table(list.n, list.sets.as_slice(), s.len(), out),
    }
}

// The fault list of n drives and some groups into buf, from the starting place on, its largest groups by mask rising;
// how many bytes. 3, 2, 5, then 4 and 34 group by group, 13, 14.
#[unsafe(no_mangle)]
pub extern "C" fn regdulyn_write_faults(
    n: u8,
    groups: &[u64],
    buf: &mut [u8],
    start: usize,
) -> SizeReply
    ensures value { result ≡ size_reply (size_written (and_then (write_faults n groups.now) (fitting start (length buf.old)))) }
    ensures buf_after { buf.new ≡ buffer_after (and_then (write_faults n groups.now) (fitting start (length buf.old))) start buf.old }
{
    c_replies::written_size(fault_files::write_faults(n, groups, buf, start))
}

// The normal table of a fault list over the first places of out; how many sets it has. 3, 2, 5, then 4 and 34 group by
// group, 13, 14.
#[unsafe(no_mangle)]
pub extern "C" fn regdulyn_table_from_faults(n: u8, groups: &[u64], out: &mut [u64]) -> SizeReply
    ensures value { result ≡ size_reply (size_written (and_then (table_from_faults n groups.now) (fitting 0 (length out.old)))) }
    ensures out_after { out.new ≡ buffer_after (and_then (table_from_faults n groups.now) (fitting 0 (length out.old))) 0 out.old }
{
    match &fault_lists::table_from_faults(n, groups) {
        Err(r) => c_replies::refused_size(*r),
        Ok(t) => lists::put_list(t.table.sets.as_slice(), out),
    }
}

// The fault list of a table, its largest groups by mask rising, over the first places of out; how many groups it has.
// 3, 2, 5, 4, 13, 14.
#[unsafe(no_mangle)]
pub extern "C" fn regdulyn_faults_from_table(n: u8, sets: &[u64], out: &mut [u64]) -> SizeReply
    ensures value { result ≡ size_reply (size_written (and_then (faults_from_table n sets.now) (fitting 0 (length out.old)))) }
    ensures out_after { out.new ≡ buffer_after (and_then (faults_from_table n sets.now) (fitting 0 (length out.old))) 0 out.old }
{
    lists::put_listed(fault_lists::faults_from_table(n, sets), out)
}
