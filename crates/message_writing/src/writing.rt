// The two messages that drives send, into the part of a lent buffer from the cursor on.
ghost use Rattle.std.specs.Prelude.{◌≡◌, ◌++◌, map};
ghost use Rattle.drive_sets.specs.Limits.{pattern_width};
ghost use Rattle.drive_sets.specs.Masks.{drives};
ghost use Rattle.records.specs.Fields.{to_bytes};
ghost use Rattle.drive_sets.specs.Lent.{written};
ghost use Rattle.records.specs.Marks.{record_bytes};
ghost use Rattle.drive_states.specs.State.{number_in};
ghost use Rattle.drive_states.specs.Messages.{decided, message, entry_of, known_of, entry_bytes, message_bytes};

use crate::DECIDE_BYTES;
use drive_sets::{Drive, PATTERN_BYTES, Pattern, Round};
use records::{WIDE_DECIDE, WIDE_KNOWN};

// The pattern numbers of the mask's drives, from the lowest, over the first bytes of the part; every other byte stays.
// Nothing where they do not fit. The place is counted in bytes, beside the drives.
fn put_numbers(part: &mut [u8], mask: u64, numbers: [Pattern; 64])
    ensures { part.new ≡ written (entry_bytes pattern_width (map (entry_of (number_in numbers)) (drives mask))) part.old }
{
    if part.len() / PATTERN_BYTES < drive_sets::size(mask) as usize {
        return;
    }
    let mut at = 0;
    let mut m = mask;
    while m != 0 {
        let d = drive_sets::lowest(m);
        let i = d.0;
        let v = numbers[(i - 1) as usize];
        lent_bytes::put_field(&mut part[at..], PATTERN_BYTES, v.0 as u64);
        m = drive_sets::without_lowest(m);
        at += PATTERN_BYTES;
    }
}

// A mark, the sender and the round, with which both messages start.
#[tactic(auto, using(crate::proofs::Writes::start_none, crate::proofs::Writes::start_written))]
fn put_start(part: &mut [u8], m: u64, sender: Drive, round: Round)
    ensures { part.new ≡ written (record_bytes m 1 sender.0 ++ to_bytes 1 round.0) part.old }
{
    if part.len() < 4 {
        return;
    }
    lent_bytes::put_record(part, m, 1, sender.0 as u64);
    lent_bytes::put_field(&mut part[3..], 1, round.0 as u64);
}

// KW over the first bytes of the part; every other byte stays. Nothing where it does not fit.
#[tactic(auto, using(crate::proofs::Writes::known_none))]
pub fn put_known(part: &mut [u8], sender: Drive, round: Round, mask: u64, numbers: [Pattern; 64])
    ensures { part.new ≡ written (message_bytes (message sender.0 round.0 (known_of mask (number_in numbers)))) part.old }
{
    if part.len() < 12 + PATTERN_BYTES * drive_sets::size(mask) as usize {
        return;
    }
    put_start(part, WIDE_KNOWN, sender, round);
    lent_bytes::put_field(&mut part[4..], 8, mask);
    put_numbers(&mut part[12..], mask, numbers);
}

// DW over the first bytes of the part; every other byte stays. Nothing where it does not fit.
#[tactic(auto, using(crate::proofs::Writes::decide_none, crate::proofs::Writes::decide_written), unfolding(records::specs::Marks::mark, records::specs::Marks::mark_text, records::specs::Marks::ascii, records::specs::Fields::from_bytes))]
pub fn put_decide(part: &mut [u8], sender: Drive, round: Round, pattern: Pattern)
    ensures { part.new ≡ written (message_bytes (message sender.0 round.0 (decided pattern.0))) part.old }
{
    if part.len() < DECIDE_BYTES {
        return;
    }
    put_start(part, WIDE_DECIDE, sender, round);
    lent_bytes::put_field(&mut part[4..], PATTERN_BYTES, pattern.0 as u64);
}
