// Lines of a listing: a word and its fields, each a number with a space in front.
ghost use Rattle.std.specs.Prelude.{ℕ, List};
ghost use Rattle.drive_sets.specs.Filled.{Filled};
ghost use Rattle.drive_sets.specs.Refusals.{number};
ghost use Rattle.text.specs.Text.{joined, PutsEach, field, fields, named, line, lines, refusal_line};

use crate::Base;
use crate::text::{place, put, put_all, put_number};
use drive_sets::Refusal;

// One field: a space and a number.
#[tactic(auto, using(crate::proofs::Puts::filled_both), unfolding(crate::specs::Text::field, records::specs::Marks::ascii))]
fn put_field(buf: &mut [u8], at: usize, base: Base, x: u64) -> usize
    ensures { Filled buf.old buf.new at result (field base x) }
{
    let next = put(buf, at, 32);
    put_number(buf, next, base, x)
}

// The texts of some numbers, one after the other, each put by a call.
fn put_each<F: Fn(&mut [u8], usize, u64) -> usize>(
    buf: &mut [u8],
    start: usize,
    numbers: &[u64],
    put_one: F,
) -> usize
    requires { F.IsAlwaysCallable put_one }
    ensures { (text : ℕ → List ℕ) → PutsEach (F.post put_one) text → Filled buf.old buf.new start result (joined text numbers.now) }
{
    let mut at = place(buf, start);
    for &x in numbers {
        at = put_one(buf, at, x);
    }
    at
}

// The fields of some numbers.
pub fn put_fields(buf: &mut [u8], start: usize, base: Base, numbers: &[u64]) -> usize
    ensures { Filled buf.old buf.new start result (fields base numbers.now) }
{
    put_each(
        buf,
        start,
        numbers,
        |buf, at, x| put_field(buf, at, base, x),
    )
}

// A word and a field.
#[tactic(auto, using(crate::proofs::Puts::filled_both), unfolding(crate::specs::Text::named))]
pub fn put_named(buf: &mut [u8], at: usize, word: &[u8], base: Base, x: u64) -> usize
    ensures { Filled buf.old buf.new at result (named word.now base x) }
{
    let worded = put_all(buf, at, word);
    put_field(buf, worded, base, x)
}

// A line of a word and one number.
#[tactic(auto, using(crate::proofs::Puts::filled_both), unfolding(crate::specs::Text::line, records::specs::Marks::ascii))]
pub fn put_line(buf: &mut [u8], at: usize, word: &[u8], base: Base, x: u64) -> usize
    ensures { Filled buf.old buf.new at result (line word.now base x) }
{
    let ended = put_named(buf, at, word, base, x);
    put(buf, ended, 10)
}

// A line for each number.
pub fn put_lines(buf: &mut [u8], start: usize, word: &[u8], base: Base, numbers: &[u64]) -> usize
    ensures { Filled buf.old buf.new start result (lines word.now base numbers.now) }
{
    put_each(
        buf,
        start,
        numbers,
        |buf, at, x| put_line(buf, at, word, base, x),
    )
}

// The line of a refusal.
#[tactic(auto, unfolding(crate::specs::Text::refusal_line, records::specs::Marks::ascii))]
pub fn put_refused(buf: &mut [u8], at: usize, r: Refusal) -> usize
    ensures { Filled buf.old buf.new at result (refusal_line (number r)) }
{
    put_line(buf, at, b"refused", Base::Decimal, u64::from(r.number()))
}
