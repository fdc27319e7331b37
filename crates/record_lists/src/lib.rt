// The one reader of lists of records: a list is read from left to right, a record at a time, until it ends by itself or
// with EN. What a record means is its list's matter.
#![tactic(auto)]

ghost use Rattle.std.specs.Prelude.{◌≡◌, ◌≤◌, List, ℕ, length, IfOk};
ghost use Rattle.records.specs.RecordLists.{ListFormat, read_list};
ghost use Rattle.record_lists.specs.Taking.{Taken, list_read};

use drive_sets::Refusal;
use records::END_WIDTH;

// A list of records, as far as it was read.
pub trait RecordList {
    // What stays as it is while the list is read, what was read so far, and how it goes on.
    ghost Setting: { Type 0 };

    ghost State: { Type 0 };

    ghost setting: { Self → Setting };

    ghost told: { Self → State };

    ghost format: { Setting → ListFormat State };

    // The list ends by itself at these bytes.
    fn ends(&self, s: &[u8]) -> bool
        ensures { result ≡ (format (setting self.now)).complete (told self.now) s.now };

    // Takes the record at the start of the bytes; how many bytes it has, none at EN.
    fn take(&mut self, s: &[u8]) -> Result<Option<usize>, Refusal>
        ensures taken { Taken (format (setting self.old)) (told self.old) (told self.new) s.now result }
        ensures kept { setting self.new ≡ setting self.old };
}

// The records at the start of the bytes; how many bytes they have, with EN.
pub fn read_records<L: RecordList>(list: &mut L, s: &[u8]) -> Result<usize, Refusal>
    ensures value { list_read (L.told list.new) s.now result ≡ read_list (L.format (L.setting list.old)) (L.told list.old) s.now }
    ensures within { IfOk result (λ used. used ≤ length s.now) }
    ensures kept { L.setting list.new ≡ L.setting list.old }
{
    let mut at = 0;
    while !list.ends(&s[at..]) {
        match list.take(&s[at..])? {
            Some(width) => at += width,
            None => return Ok(at + END_WIDTH),
        }
    }
    Ok(at)
}
