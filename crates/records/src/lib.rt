// Records: a two-letter mark and byte fields, lowest byte first, read from a slice; lists of records. A mark is a
// number, matched to a record kind and tested against what is due.
#![tactic(auto)]

ghost use Rattle.std.specs.Prelude.{◌≡◌, min, ◌||◌, take, drop};
ghost use Rattle.records.specs.Fields.{from_bytes, field_at};
ghost use Rattle.records.specs.Marks.{mark, kind_of, number_width, body_width, is_kind, is_due, kind_at, head_of};
ghost use Rattle.records.specs.RecordLists.{next_of};

use drive_sets::{NARROW_PATTERN_BYTES, PATTERN_BYTES, Pattern, Refusal};

// The kind of a record, with its mark as a two-byte field: the first letter is the low byte.
#[derive(Clone, Copy, PartialEq, Eq)]
pub enum Kind {
    Frame = 0x5246,
    Survivor = 0x5653,
    Fault = 0x4c46,
    Proposal = 0x5250,
    Crash = 0x5243,
    End = 0x4e45,
    Known = 0x4e4b,
    Decide = 0x4344,
    // A proposal, known numbers and a decision again, with wide pattern numbers.
    WideProposal = 0x5750,
    WideKnown = 0x574b,
    WideDecide = 0x5744,
    Unknown = 0,
}

// The place of a record: which kinds are due there.
#[derive(Clone, Copy)]
pub enum Due {
    AtRecord(Kind),
    AtRecordOrEnd(Kind),
    AtProposal,
    AtMessage,
}

// What stands where a record of a list or its end is due: one record more, or the end.
#[derive(Clone, Copy)]
pub enum Next {
    One,
    End,
}

// The marks.
pub const FRAME: u64 = Kind::Frame as u64;

pub const SURVIVOR: u64 = Kind::Survivor as u64;

pub const FAULT: u64 = Kind::Fault as u64;

pub const PROPOSAL: u64 = Kind::Proposal as u64;

pub const CRASH: u64 = Kind::Crash as u64;

pub const END: u64 = Kind::End as u64;

pub const KNOWN: u64 = Kind::Known as u64;

pub const DECIDE: u64 = Kind::Decide as u64;

pub const WIDE_PROPOSAL: u64 = Kind::WideProposal as u64;

pub const WIDE_KNOWN: u64 = Kind::WideKnown as u64;

pub const WIDE_DECIDE: u64 = Kind::WideDecide as u64;

// How many bytes a record of a list has, with its mark.
pub const FRAME_WIDTH: usize = 3;

pub const MASK_RECORD_WIDTH: usize = 10;

pub const CRASH_WIDTH: usize = 5;

pub const END_WIDTH: usize = 3;

// The number of the bytes, of the first 8 where there are more.
pub(crate) fn from_bytes(s: &[u8]) -> u64
    ensures { result ≡ from_bytes (take 8 s.now) }
{
    let mut x = 0;
    for &b in s[..s.len().min(8)].iter().rev() {
        x = x * 256 + u64::from(b);
    }
    x
}

// The first bytes, so many or all there are.
pub fn first(s: &[u8], size: usize) -> &[u8]
    ensures { result.now ≡ take size s.now }
{
    &s[..s.len().min(size)]
}

// What stands behind so many bytes; nothing where there are fewer.
pub fn rest(s: &[u8], size: usize) -> &[u8]
    ensures { result.now ≡ drop size s.now }
{
    &s[s.len().min(size)..]
}

// The field of a width at a place, of at most 8 bytes; bytes that are not there count as none.
pub fn field(s: &[u8], at: usize, width: usize) -> u64
    ensures { result ≡ from_bytes (take (min 8 width) (drop at s.now)) }
{
    // The whole field first: of a constant width the compiled loop has no test.
    let part = rest(s, at);
    if part.len() < width {
        return from_bytes(part);
    }
    from_bytes(first(part, width))
}

// The kind of record that a mark starts.
impl From<u64> for Kind {
    ghost from_gives = { λ m k. k ≡ kind_of m };

    #[tactic(auto, unfolding(crate::specs::Marks::kind_of, crate::specs::Marks::mark, crate::specs::Marks::mark_text, crate::specs::Marks::ascii, crate::specs::Fields::from_bytes))]
    fn from(m: u64) -> Kind {
        match m {
            FRAME => Kind::Frame,
            SURVIVOR => Kind::Survivor,
            FAULT => Kind::Fault,
            PROPOSAL => Kind::Proposal,
            CRASH => Kind::Crash,
            END => Kind::End,
            KNOWN => Kind::Known,
            DECIDE => Kind::Decide,
            WIDE_PROPOSAL => Kind::WideProposal,
            WIDE_KNOWN => Kind::WideKnown,
            WIDE_DECIDE => Kind::WideDecide,
            _ => Kind::Unknown,
        }
    }
}

// How many bytes a pattern number takes in a record of this kind; the others have none.
#[tactic(auto, unfolding(crate::specs::Marks::number_width))]
pub fn number_width(k: Kind) -> usize
    ensures { result ≡ number_width k }
{
    match k {
        Kind::Proposal | Kind::Known | Kind::Decide => NARROW_PATTERN_BYTES,
        Kind::WideProposal | Kind::WideKnown | Kind::WideDecide => PATTERN_BYTES,
        _ => 0,
    }
}

// One more than the largest number of two bytes.
const NARROW_NUMBERS: u32 = 0x1_0000;

// The pattern number at a place in a record of this kind. Four bytes are read in any case, since a loop over a constant
// number of bytes is faster, and two of them kept where a number has two.
pub fn pattern_at(s: &[u8], at: usize, k: Kind) -> Pattern
    ensures { result.0 ≡ field_at at (number_width k) s.now }
{
    let width = number_width(k);
    let x = field(s, at, PATTERN_BYTES) as u32;
    if width == PATTERN_BYTES {
        return Pattern(x);
    }
    if width == NARROW_PATTERN_BYTES {
        return Pattern(x % NARROW_NUMBERS);
    }
    Pattern(0)
}

// What follows the mark where a pattern number does: a drive, or a sender and a round, and the number.
const PROPOSAL_BODY: usize = 1 + NARROW_PATTERN_BYTES;

const DECIDE_BODY: usize = 2 + NARROW_PATTERN_BYTES;

const WIDE_PROPOSAL_BODY: usize = 1 + PATTERN_BYTES;

const WIDE_DECIDE_BODY: usize = 2 + PATTERN_BYTES;

// How many bytes follow the mark; of a KN or KW up to its mask.
#[tactic(auto, unfolding(crate::specs::Marks::body_width))]
pub fn body_width(k: Kind) -> usize
    ensures { result ≡ body_width k }
{
    match k {
        Kind::Frame | Kind::End => 1,
        Kind::Survivor | Kind::Fault => 8,
        Kind::Crash => 3,
        Kind::Known | Kind::WideKnown => 10,
        Kind::Proposal => PROPOSAL_BODY,
        Kind::Decide => DECIDE_BODY,
        Kind::WideProposal => WIDE_PROPOSAL_BODY,
        Kind::WideDecide => WIDE_DECIDE_BODY,
        Kind::Unknown => 0,
    }
}

// The mark of a kind of record; 0 where it is unknown.
#[tactic(auto, unfolding(crate::specs::Marks::mark, crate::specs::Marks::mark_text, crate::specs::Marks::ascii, crate::specs::Fields::from_bytes))]
pub fn mark_of(k: Kind) -> u64
    ensures { result ≡ mark k }
{
    k as u64
}

// The kind is one of the two.
#[tactic(auto, using(crate::proofs::Matches::kind_same, drive_sets::specs::Bools::Laws::or_second))]
pub fn is_either(k: Kind, one: Kind, other: Kind) -> bool
    ensures { result ≡ (is_kind one k || is_kind other k) }
{
    k == one || k == other
}

// A record of this kind may stand here.
#[tactic(auto, using(crate::proofs::Matches::kind_same, drive_sets::specs::Bools::Laws::or_second), unfolding(crate::specs::Marks::is_due))]
pub(crate) fn is_due(due: Due, k: Kind) -> bool
    ensures { result ≡ is_due due k }
{
    match due {
        Due::AtRecord(one) => k == one,
        Due::AtRecordOrEnd(one) => is_either(k, one, Kind::End),
        Due::AtProposal => is_either(k, Kind::Proposal, Kind::WideProposal),
        Due::AtMessage => {
            is_either(k, Kind::Known, Kind::Decide)
                || is_either(k, Kind::WideKnown, Kind::WideDecide)
        }
    }
}

// A record that is due here starts the bytes; where its mark is cut, none does.
pub fn starts(s: &[u8], due: Due) -> bool
    ensures { result ≡ is_due due (kind_at s.now) }
{
    is_due(due, Kind::from(field(s, 0, 2)))
}

// The record at the start of the bytes: refused where its mark is cut, is not due, or the rest is cut.
#[tactic(auto, unfolding(crate::specs::Marks::head_of))]
pub fn read_head(s: &[u8], due: Due) -> Result<Kind, Refusal>
    ensures { result ≡ head_of due s.now }
{
    if s.len() < 2 {
        return Err(Refusal::EndsTooSoon);
    }
    let k = Kind::from(field(s, 0, 2));
    if !is_due(due, k) {
        return Err(Refusal::WrongMark);
    }
    if s.len() - 2 < body_width(k) {
        return Err(Refusal::EndsTooSoon);
    }
    Ok(k)
}

// The record at the start of the bytes where one of a list or its end is due, behind `count` records.
#[tactic(auto, using(crate::proofs::Matches::kind_same), unfolding(crate::specs::RecordLists::next_of))]
pub fn next_record(s: &[u8], due: Due, count: usize) -> Result<Next, Refusal>
    ensures { result ≡ next_of due count s.now }
{
    let kind = read_head(s, due)?;
    if kind == Kind::End {
        if field(s, 2, 1) == count as u64 {
            return Ok(Next::End);
        }
        return Err(Refusal::CountDiffers);
    }
    Ok(Next::One)
}
