// Text into a buffer, from a place on, as long as there is room. A place one past the end says that there is no more
// room: what is put there is dropped, and the place stays.
ghost use Rattle.std.specs.Prelude.{◌≡◌, [], ◌∷◌, suc, ◌≤◌, ◌<◌, min, length};
ghost use Rattle.drive_sets.specs.Filled.{Filled};
ghost use Rattle.text.specs.Text.{digit, in_base, digits};

use crate::Base;

// A place to start from: one past the end where it is behind that.
pub(crate) fn place(buf: &[u8], at: usize) -> usize
    ensures { result ≡ min (suc (length buf.now)) at }
{
    at.min(buf.len() + 1)
}

// One byte.
pub(crate) fn put(buf: &mut [u8], at: usize, b: u8) -> usize
    ensures { Filled buf.old buf.new at result (b ∷ []) }
{
    if buf.len() <= at {
        return buf.len() + 1;
    }
    buf[at] = b;
    at + 1
}

// Some bytes.
pub fn put_all(buf: &mut [u8], start: usize, text: &[u8]) -> usize
    ensures { Filled buf.old buf.new start result text.now }
{
    let mut at = place(buf, start);
    for &b in text {
        at = put(buf, at, b);
    }
    at
}

// 0 to 9, then a to f.
#[tactic(auto, unfolding(crate::specs::Text::digit))]
fn digit(d: u64) -> u8
    requires { d < 16 }
    ensures { result ≡ digit d }
{
    if d < 10 {
        return (48 + d) as u8;
    }
    (87 + d) as u8
}

// x in a base, without leading zeros; at most `most` calls deep.
fn put_in_base(buf: &mut [u8], at: usize, base: u64, most: u8, x: u64) -> usize
    requires { (2 ≤ base) × (base ≤ 16) }
    ensures { Filled buf.old buf.new at result (in_base base most x) }
{
    if most == 0 {
        return place(buf, at);
    }
    if x < base {
        return put(buf, at, digit(x % base));
    }
    let last = digit(x % base);
    let next = put_in_base(buf, at, base, most - 1, x / base);
    put(buf, next, last)
}

// A number.
#[tactic(auto, unfolding(crate::specs::Text::digits))]
pub(crate) fn put_number(buf: &mut [u8], at: usize, base: Base, x: u64) -> usize
    ensures { Filled buf.old buf.new at result (digits base x) }
{
    match base {
        Base::Decimal => put_in_base(buf, at, 10, 20, x),
        Base::Hexadecimal => put_in_base(buf, at, 16, 16, x),
    }
}
