// For each drive the places of the sets that lack it: its column, two words with a bit for each of the places 0 to 63
// and 64 to 127. A few columns tell of all sets at once whether one of them lacks some drives. Drive d has the index
// d - 1.
ghost use Rattle.std.specs.Prelude.{◌≡◌, true, ℕ, suc, ◌+◌, ◌≤◌, ◌<◌, length};
ghost use Rattle.drive_sets.specs.Limits.{max_sets};
ghost use Rattle.drive_sets.specs.Lists.{elem};
ghost use Rattle.drive_sets.specs.Masks.{has, minus, size, lowest};
ghost use Rattle.verdict_search.specs.Columns.{column_words, Added, LackingTo, LackingOf, EachMet};

use drive_sets::Drive;

// The words of the columns of 64 drives.
const COLUMN_WORDS: usize = 128;

// How many places a word has.
const WORD_PLACES: usize = 64;

// The columns of a table for the drives of a frame, how many sets lack each of these drives, and the most of them that
// one set lacks.
#[derive(Drop)]
pub(crate) struct Lacking {
    pub(crate) columns: [u64; COLUMN_WORDS],
    pub(crate) counts: [u64; 64],
    pub(crate) most: u32,
}

// The index of the lowest drive of m.
fn lowest_index(m: u64) -> usize
    requires { m ≡ 0 → ⊥ }
    ensures { (suc result ≡ lowest m) × (result < 64) }
{
    let d = drive_sets::lowest(m);
    usize::from(d.0) - 1
}

// The place put into the columns of these drives.
fn put_place(columns: &mut [u64], place: usize, lacking: u64)
    requires { (column_words ≤ length columns.old) × (place < max_sets) }
    ensures { Added columns.old columns.new place lacking }
{
    let half = place / WORD_PLACES;
    let bit = drive_sets::single(Drive((place % WORD_PLACES + 1) as u8));
    let mut rest = lacking;
    while rest != 0 {
        let at = 2 * lowest_index(rest) + half;
        columns[at] |= bit;
        rest = drive_sets::without_lowest(rest);
    }
}

// The columns of the drives of the frame, from columns that are empty.
fn put_lacking(table: &[u64], frame: u64, columns: &mut [u64])
    requires { (length table.now ≤ max_sets) × (column_words ≤ length columns.old) }
    ensures { LackingTo (length table.now) table.now columns.new frame }
{
    for (place, &set) in table.iter().enumerate() {
        put_place(columns, place, drive_sets::minus(frame, set));
    }
}

// The most drives of the frame that one of the sets lacks.
fn most_lacking(table: &[u64], frame: u64) -> u32
    ensures { (s : ℕ) → elem s table.now ≡ true → size (minus frame s) ≤ result }
{
    let mut most = 0;
    for &set in table {
        most = most.max(drive_sets::size(drive_sets::minus(frame, set)));
    }
    most
}

// How many sets lack each drive of the frame.
fn count_lacking(columns: &[u64], frame: u64, counts: &mut [u64; 64])
    requires { column_words ≤ length columns.now }
{
    let mut rest = frame;
    while rest != 0 {
        let i = lowest_index(rest);
        let low = drive_sets::size(columns[2 * i]);
        let high = drive_sets::size(columns[2 * i + 1]);
        counts[i] = u64::from(low) + u64::from(high);
        rest = drive_sets::without_lowest(rest);
    }
}

// What the sets of a table lack of the frame, put where it stays: a copy of the columns would take as long as a verdict
// on few sets.
pub(crate) fn lacking_of(table: &[u64], frame: u64) -> Lacking
    requires { length table.now ≤ max_sets }
    ensures { LackingOf table.now result frame }
{
    let mut lacking = Lacking {
        columns: [0u64; COLUMN_WORDS],
        counts: [0u64; 64],
        most: most_lacking(table, frame),
    };
    put_lacking(table, frame, &mut lacking.columns);
    count_lacking(&lacking.columns, frame, &mut lacking.counts);
    lacking
}

// The index of the drive of `shared` that the fewest sets lack.
pub(crate) fn rarest(counts: &[u64; 64], shared: u64) -> usize
    requires { shared ≡ 0 → ⊥ }
    ensures { (has (result + 1) shared ≡ true) × (result < 64) }
{
    let mut best = lowest_index(shared);
    let mut least = counts[best];
    let mut rest = drive_sets::without_lowest(shared);
    while rest != 0 {
        let i = lowest_index(rest);
        let count = counts[i];
        if count < least {
            best = i;
            least = count;
        }
        rest = drive_sets::without_lowest(rest);
    }
    best
}

// Each set has a drive of `shared`: no place is in the columns of all of them. The first columns that have no place in
// common tell it.
pub(crate) fn each_meets(columns: &[u64], shared: u64) -> bool
    requires { column_words ≤ length columns.now }
    ensures { result ≡ true → EachMet columns.now shared }
{
    let mut low = u64::MAX;
    let mut high = u64::MAX;
    let mut rest = shared;
    while rest != 0 {
        let at = 2 * lowest_index(rest);
        low &= columns[at];
        high &= columns[at + 1];
        if low | high == 0 {
            return true;
        }
        rest = drive_sets::without_lowest(rest);
    }
    false
}
