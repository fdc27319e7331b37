// The lines of the verdicts on 2, 3 and 4 as text: yes, no with its positions and blocks, or few.
#![tactic(auto)]

ghost use Rattle.std.specs.Prelude.{◌≡◌, ◌≤◌};
ghost use Rattle.drive_sets.specs.Filled.{Filled};
ghost use Rattle.verdict_search.specs.Held.{verdict_of};
ghost use Rattle.verdicts.specs.Held.{judgement_of};
ghost use Rattle.verdicts.specs.Calls.{verdict_given};
ghost use Rattle.verdict_lines.specs.VerdictLines.{no_part, verdict_part, verdict_line, verdict_lines};

use drive_sets::Refusal;
use text::Base;
use text::lines::{put_fields, put_named};
use text::text::put_all;
use verdict_search::Verdict;

// A no with its positions and blocks, to the line's end.
fn put_no(buf: &mut [u8], at: usize, positions: &[u64], blocks: &[u64]) -> usize
    ensures { Filled buf.old buf.new at result (no_part positions.now blocks.now) }
{
    let denied = put_all(buf, at, b" no sets");
    let placed = put_fields(buf, denied, Base::Decimal, positions);
    let split = put_all(buf, placed, b" blocks");
    let listed = put_fields(buf, split, Base::Hexadecimal, blocks);
    put_all(buf, listed, b"\n")
}

// A verdict on k, to the line's end.
fn put_held(buf: &mut [u8], at: usize, k: u8, v: Verdict) -> usize
    requires { k ≤ 4 }
    ensures { Filled buf.old buf.new at result (verdict_part (verdict_of v k)) }
{
    match v {
        Verdict::Yes => put_all(buf, at, b" yes\n"),
        Verdict::No { positions, blocks } => {
            let places = positions.map(u64::from);
            put_no(
                buf,
                at,
                &places[..usize::from(k)],
                &blocks[..usize::from(k)],
            )
        }
    }
}

// The line of what a call on k says.
fn put_verdict(buf: &mut [u8], at: usize, k: u8, verdict: Result<Verdict, Refusal>) -> usize
    requires { k ≤ 4 }
    ensures { Filled buf.old buf.new at result (verdict_line k (judgement_of verdict k)) }
{
    let headed = put_named(buf, at, b"k", Base::Decimal, u64::from(k));
    match verdict {
        Ok(v) => put_held(buf, headed, k, v),
        Err(_) => put_all(buf, headed, b" few\n"),
    }
}

// The line of the verdict on k of a normal table.
fn put_verdict_on(buf: &mut [u8], at: usize, k: u8, n: u8, table: &[u64]) -> usize
    requires { k ≤ 4 }
    ensures { Filled buf.old buf.new at result (verdict_line k (verdict_given k n table.now)) }
{
    put_verdict(buf, at, k, verdicts::calls::verdict_on(k, n, table))
}

// The lines of the verdicts on 2, 3 and 4 of a normal table.
pub fn put_verdicts(buf: &mut [u8], at: usize, n: u8, table: &[u64]) -> usize
    ensures { Filled buf.old buf.new at result (verdict_lines n table.now) }
{
    let two = put_verdict_on(buf, at, 2, n, table);
    let three = put_verdict_on(buf, two, 3, n, table);
    put_verdict_on(buf, three, 4, n, table)
}
