// The entries of a message that tells numbers: each drive of its mask, the lowest first, with the next bytes.
ghost use Rattle.std.specs.Prelude.{◌≡◌, true, not, ◌&&◌, ◌↔◌, eqb, drop, IsNone, IfSome};
ghost use Rattle.drive_sets.specs.Masks.{has, drives};
ghost use Rattle.records.specs.Marks.{number_width};
ghost use Rattle.drive_states.specs.Messages.{entries_from};
ghost use Rattle.agreement.specs.Calls.{any_differs, stored};

use drive_sets::{Drive, Pattern};
use drive_states::Exchange;
use records::Kind;

// The drive's number is known, and is another one.
fn conflicts(d: Drive, known: u64, held: Pattern, v: Pattern) -> bool
    ensures { result ≡ (has d.0 known && not (eqb held.0 v.0)) }
{
    drive_sets::has(d, known) && held.0 != v.0
}

// The pattern numbers with those of the entries; none where one differs from the number known for its drive. The entries
// are read in one walk, by what is left of the bytes: by a place in them the compiled loop is slower.
#[tactic(auto, using(drive_sets::specs::Loops::Drives::lowest_bounds, drive_sets::specs::Loops::Drives::taken, drive_sets::specs::Loops::Drives::taken_fewer))]
pub(crate) fn read_all(kind: Kind, x: &Exchange, mask: u64, s: &[u8]) -> Option<[Pattern; 64]>
    ensures differs { IsNone result ↔ (any_differs x.now (entries_from (number_width kind) (drives mask) (drop 12 s.now)) ≡ true) }
    ensures kept { IfSome result (λ numbers. numbers ≡ stored x.now.numbers (entries_from (number_width kind) (drives mask) (drop 12 s.now))) }
{
    let mut numbers = x.numbers;
    let width = records::number_width(kind);
    let mut values = records::rest(s, 12);
    let mut m = mask;
    while m != 0 {
        let d = drive_sets::lowest(m);
        let place = (d.0 - 1) as usize;
        let v = records::pattern_at(values, 0, kind);
        if conflicts(d, x.known, x.numbers[place], v) {
            return None;
        }
        numbers[place] = v;
        m = drive_sets::without_lowest(m);
        values = records::rest(values, width);
    }
    Some(numbers)
}
