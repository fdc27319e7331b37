// Sets of drives as 64-bit masks, the three counts that are never mixed up, positions in a list, and the refusals of
// every call. Each function is total and gives what its definition in specs/ gives.
#![tactic(auto)]

ghost use Rattle.std.specs.Prelude.{◌≡◌, eqb};
ghost use Rattle.drive_sets.specs.Counts.{is_drive, is_round};
ghost use Rattle.drive_sets.specs.Masks.{has, single, full, union, minus, outside, meets, subset, size, lowest, lowest_alone, drives};
ghost use Rattle.std.specs.Iterator.{YieldsFirstBy, item_count};
ghost use Rattle.drive_sets.specs.Refusals.{number};

// A drive's number, from 1: a process. The three counts cross to C as the numbers that they are.
#[repr(C)]
#[derive(Clone, Copy, PartialEq, Eq, PartialOrd, Ord)]
pub struct Drive(pub u8);

// A round's number, from 1.
#[repr(C)]
#[derive(Clone, Copy, PartialEq, Eq, PartialOrd, Ord)]
pub struct Round(pub u8);

// A pattern number: the value that is proposed and decided. Each of 0 to 4294967295 is one.
#[repr(C)]
#[derive(Clone, Copy, PartialEq, Eq, PartialOrd, Ord)]
pub struct Pattern(pub u32);

pub const MAX_DRIVES: u8 = 64;

// How many bytes a pattern number takes; a narrow one, of old records, takes fewer.
pub const PATTERN_BYTES: usize = 4;

pub const NARROW_PATTERN_BYTES: usize = 2;

// Why a call is refused, by the lists of documents 01 and 02; `number` has its numbers.
#[derive(Clone, Copy, PartialEq, Eq)]
pub enum Refusal {
    // From the input.
    EndsTooSoon = 1,
    WrongMark = 2,
    FrameSize = 3,
    BadSet = 4,
    TooManySets = 5,
    CountDiffers = 6,
    TrailingBytes = 7,
    DriveNumber = 8,
    CrashRound = 9,
    CrashSends = 10,
    NoneUntouched = 11,
    BlockCount = 12,
    TooManyCores = 13,
    NoRoom = 14,
    KnownMask = 15,
    // From the state.
    AlreadyAccepted = 21,
    OutsideCore = 22,
    Halted = 23,
    SenderMissing = 24,
    PatternDiffers = 25,
    OtherRound = 26,
    ListenerSends = 27,
    BrokenState = 28,
    // From n and t.
    Threshold = 31,
    TooManyGroups = 32,
    // From n and k.
    FewDrives = 33,
    // From a fault group.
    AllDrives = 34,
}

impl Refusal {
    pub fn number(self) -> u8
        ensures { result ≡ number self }
    {
        self as u8
    }
}

// Drive d is in m: by shift.
#[tactic(auto, using(crate::proofs::Words::has_above, crate::proofs::Words::has_shift), unfolding(crate::specs::Masks::has))]
pub fn has(d: Drive, m: u64) -> bool
    ensures { result ≡ has d.0 m }
{
    let i = d.0;
    if i == 0 {
        return false;
    }
    if MAX_DRIVES < i {
        return false;
    }
    (m >> (i - 1)) % 2 == 1
}

// The set of one drive.
#[tactic(auto, using(crate::proofs::Words::single_above, crate::proofs::Words::single_shift), unfolding(crate::specs::Masks::single))]
pub fn single(d: Drive) -> u64
    ensures { result ≡ single d.0 }
{
    let i = d.0;
    if i == 0 {
        return 0;
    }
    if MAX_DRIVES < i {
        return 0;
    }
    1 << (i - 1)
}

// All drives 1 to n, without a shift by 64.
#[tactic(auto, using(crate::proofs::Words::full_above, crate::proofs::Words::full_shift), unfolding(crate::specs::Masks::full))]
pub fn full(n: u8) -> u64
    ensures { result ≡ full n }
{
    if n == 0 {
        return 0;
    }
    if MAX_DRIVES < n {
        return 0xffff_ffff_ffff_ffff;
    }
    0xffff_ffff_ffff_ffff >> (MAX_DRIVES - n)
}

// The drives of a and not of b.
#[tactic(auto, unfolding(crate::specs::Masks::minus))]
pub fn minus(a: u64, b: u64) -> u64
    ensures { result ≡ minus a b }
{
    a - (a & b)
}

// The drives 1 to n outside m.
#[tactic(auto, unfolding(crate::specs::Masks::outside))]
pub fn outside(n: u8, m: u64) -> u64
    ensures { result ≡ outside n m }
{
    minus(full(n), m)
}

// m with drive d.
#[tactic(auto, unfolding(crate::specs::Masks::union))]
pub fn insert(m: u64, d: Drive) -> u64
    ensures { result ≡ union m (single d.0) }
{
    m | single(d)
}

// m without drive d.
pub fn remove(m: u64, d: Drive) -> u64
    ensures { result ≡ minus m (single d.0) }
{
    minus(m, single(d))
}

// The two sets share a drive: by and.
#[tactic(auto, unfolding(crate::specs::Masks::meets))]
pub fn meets(a: u64, b: u64) -> bool
    ensures { result ≡ meets a b }
{
    a & b != 0
}

// Every drive of a is in b.
#[tactic(auto, unfolding(crate::specs::Masks::subset))]
pub fn subset(a: u64, b: u64) -> bool
    ensures { result ≡ subset a b }
{
    a & b == a
}

// How many drives m has: the count of ones.
#[tactic(auto, using(crate::specs::Masks::Sizes::ones_size))]
pub fn size(m: u64) -> u32
    ensures { result ≡ size m }
{
    u64::count_ones(m)
}

// The lowest drive of m, by trailing zeros; drive 65, which is none, where m is empty.
#[tactic(auto, unfolding(crate::specs::Masks::lowest))]
pub fn lowest(m: u64) -> Drive
    ensures { result.0 ≡ lowest m }
{
    let z = u64::trailing_zeros(m);
    Drive((z + 1) as u8)
}

// m without its lowest drive, by one `and`; an empty set stays empty.
#[tactic(auto, using(crate::specs::Masks::Lowest::lowest_cleared), unfolding(crate::specs::Masks::minus))]
pub fn without_lowest(m: u64) -> u64
    ensures { result ≡ minus m (single (lowest m)) }
{
    if m == 0 {
        return 0;
    }
    m & (m - 1)
}

// The set of the lowest drive of m; an empty set has none.
#[tactic(auto, unfolding(crate::specs::Masks::minus, crate::specs::Masks::lowest_alone))]
pub fn lowest_alone(m: u64) -> u64
    ensures { result ≡ lowest_alone m }
{
    if m == 0 {
        return 0;
    }
    minus(m, m - 1)
}

// The drives of a set, rising, one after the other.
#[derive(Clone, Copy)]
pub struct Drives(pub u64);

impl Iterator for Drives {
    type Item = Drive;

    ghost next_gives = { YieldsFirstBy (λ d. d.0) (λ s. drives s.0) };

    ghost remaining = { item_count (λ s. drives s.0) };

    fn next(&mut self) -> Option<Drive> {
        if self.0 == 0 {
            return None;
        }
        let first = lowest(self.0);
        self.0 = without_lowest(self.0);
        Some(first)
    }
}

// m has one drive.
#[tactic(auto, using(crate::specs::Masks::Sizes::size_none, crate::specs::Masks::Lowest::one_cleared))]
pub fn is_single(m: u64) -> bool
    ensures { result ≡ eqb (size m) 1 }
{
    if m == 0 {
        return false;
    }
    without_lowest(m) == 0
}

// A drive of a frame of n drives.
#[tactic(auto, unfolding(crate::specs::Counts::is_drive))]
pub fn is_drive(n: u8, d: Drive) -> bool
    ensures { result ≡ is_drive n d.0 }
{
    let i = d.0;
    1 <= i && i <= n
}

// A round of an exchange whose core this is: 1 to the core's size.
#[tactic(auto, unfolding(crate::specs::Counts::is_round))]
pub fn is_round(core: u64, round: Round) -> bool
    ensures { result ≡ is_round core round.0 }
{
    let q = round.0;
    let last = size(core);
    1 <= q && q as u32 <= last
}
