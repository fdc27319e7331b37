// Bytes in a lent buffer: the room for them, and fields and records of one field put into the part that starts at the
// cursor. A call that writes answers how many bytes it wrote, or why none.
#![tactic(auto)]

ghost use Rattle.std.specs.Prelude.{◌≡◌, ◌+◌, leb};
ghost use Rattle.records.specs.Fields.{to_bytes};
ghost use Rattle.drive_sets.specs.Lent.{written};
ghost use Rattle.records.specs.Marks.{record_bytes};

// So many bytes fit into a buffer of the given length from the starting place on.
pub fn fits(room: usize, start: usize, size: usize) -> bool
    ensures { result ≡ leb (start + size) room }
{
    if room < start {
        return false;
    }
    size <= room - start
}

// The field of x over the first bytes of the part; every other byte stays.
#[tactic(auto, using(crate::proofs::FieldWrites::writing_end, crate::proofs::FieldWrites::writing_none))]
pub fn put_field(part: &mut [u8], width: usize, x: u64)
    ensures { part.new ≡ written (to_bytes width x) part.old }
{
    if part.len() < width {
        return;
    }
    let mut rest = x;
    for i in 0..width {
        part[i] = (rest % 256) as u8;
        rest = rest / 256;
    }
}

// A record of a mark and one field over the first bytes of the part; every other byte stays.
#[tactic(auto, using(crate::proofs::Parts::record_written, crate::proofs::Parts::record_none))]
pub fn put_record(part: &mut [u8], m: u64, width: usize, x: u64)
    ensures { part.new ≡ written (record_bytes m width x) part.old }
{
    if part.len() < 2 {
        return;
    }
    if part.len() - 2 < width {
        return;
    }
    put_field(part, 2, m);
    put_field(&mut part[2..], width, x);
}
