// The fields of a message as they are read. A byte that is not there counts as none: the message call refuses a cut
// message before it reads what is cut.
ghost use Rattle.std.specs.Prelude.{◌≡◌};
ghost use Rattle.records.specs.Fields.{field_at};
ghost use Rattle.records.specs.Marks.{number_width};
ghost use Rattle.drive_states.specs.Messages.{mask_in, length_in, sender_of, round_of, mask_of, pattern_of, is_known, content_of, wrong_mask};

use drive_sets::{Drive, Pattern, Round};
use records::Kind;

// A field of one byte.
fn byte_at(s: &[u8], at: usize) -> u8
    ensures { result ≡ field_at at 1 s.now }
{
    records::field(s, at, 1) as u8
}

#[tactic(auto, unfolding(drive_states::specs::Messages::sender_of))]
pub fn sender_of(s: &[u8]) -> Drive
    ensures { result.0 ≡ sender_of s.now }
{
    Drive(byte_at(s, 2))
}

#[tactic(auto, unfolding(drive_states::specs::Messages::round_of))]
pub fn round_of(s: &[u8]) -> Round
    ensures { result.0 ≡ round_of s.now }
{
    Round(byte_at(s, 3))
}

// Of a KN or KW.
#[tactic(auto, unfolding(drive_states::specs::Messages::mask_of))]
pub(crate) fn mask_of(s: &[u8]) -> u64
    ensures { result ≡ mask_of s.now }
{
    records::field(s, 4, 8)
}

// The message tells numbers: a KN or KW.
#[tactic(auto, unfolding(drive_states::specs::Messages::is_known))]
pub fn is_known(kind: Kind) -> bool
    ensures { result ≡ is_known kind }
{
    records::is_either(kind, Kind::Known, Kind::WideKnown)
}

// The drives whose numbers a message tells: a decision tells none.
#[tactic(auto, unfolding(drive_states::specs::Messages::mask_in, drive_states::specs::Messages::content_of))]
pub fn mask_in(kind: Kind, s: &[u8]) -> u64
    ensures { result ≡ mask_in (content_of kind s.now) }
{
    if is_known(kind) {
        return mask_of(s);
    }
    0
}

// Of a DC or DW.
#[tactic(auto, unfolding(drive_states::specs::Messages::pattern_of))]
pub fn pattern_of(kind: Kind, s: &[u8]) -> Pattern
    ensures { result.0 ≡ pattern_of (number_width kind) s.now }
{
    records::pattern_at(s, 4, kind)
}

// 15: the mask of a KN or KW lacks the sender or has a bit above n.
#[tactic(auto, unfolding(drive_states::specs::Messages::wrong_mask, drive_states::specs::Messages::content_of))]
pub fn wrong_mask(kind: Kind, n: u8, s: &[u8]) -> bool
    ensures { result ≡ wrong_mask n (sender_of s.now) (content_of kind s.now) }
{
    if !is_known(kind) {
        return false;
    }
    let mask = mask_of(s);
    if !drive_sets::has(sender_of(s), mask) {
        return true;
    }
    !drive_sets::subset(mask, drive_sets::full(n))
}

// How long a message of this kind is: for a KN or KW its mask says how many numbers follow.
#[tactic(auto, unfolding(drive_states::specs::Messages::length_in, drive_states::specs::Messages::content_of))]
pub fn length_in(kind: Kind, s: &[u8]) -> usize
    ensures { result ≡ length_in (number_width kind) (content_of kind s.now) }
{
    let width = records::number_width(kind);
    if !is_known(kind) {
        return 4 + width;
    }
    let count = drive_sets::size(mask_of(s));
    12 + width * (count as usize)
}
