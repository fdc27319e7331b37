// Sets marked by their places, for the search: the set at place 64 * i + j by bit j of word i. The first 1024 sets have
// places; where there are more the search looks at the sets themselves.
ghost use Rattle.std.specs.Prelude.{◌≡◌, true, false, not, ◌&&◌, ◌||◌, ◌↔◌, ℕ, ◌+◌, ◌-◌, ◌*◌, ◌≤◌, ◌<◌, eqb, length, get_or, take, drop, replicate};
ghost use Rattle.drive_sets.specs.Masks.{has, union, common, minus, meets};
ghost use Rattle.survivor_tables.specs.Hitting.{hits, missed_from};
ghost use Rattle.hitting_sets.specs.Marks.{Marked, Columns, InMarked, Apart};

use drive_sets::Drive;
use survivor_tables::MAX_CORES;
use survivor_tables::missed::next_missed;

// The words in which each set has its mark.
pub(crate) const WORDS: usize = 16;

// The words of the columns of all drives.
pub(crate) const COLUMNS: usize = 64 * WORDS;

// How many words the marks of so many sets take; all that there are where the sets are too many.
pub(crate) fn words_for(count: usize) -> usize
    ensures { result ≤ 16 }
{
    count.div_ceil(64).min(WORDS)
}

// The place of drive d.
pub(crate) fn place(d: Drive) -> usize
    requires { (1 ≤ d.0) × (d.0 ≤ 64) }
    ensures { (result ≡ d.0 - 1) × (result < 64) }
{
    let n = d.0;
    (n - 1) as usize
}

// ---- the sets that hold a drive

// The marks of the sets that hold drive d: its column.
pub(crate) fn column(columns: &[u64], d: Drive) -> &[u64]
    requires { (1 ≤ d.0) × (d.0 ≤ 64) × (1024 ≤ length columns.now) }
    ensures { result.now ≡ drop (16 * (d.0 - 1)) columns.now }
{
    let start = WORDS * place(d);
    &columns[start..]
}

// A set, marked by `bit` of word i in the columns of its drives.
fn mark(columns: &mut [u64], set: u64, i: usize, bit: u64)
    requires { (i < 16) × (1024 ≤ length columns.old) }
    ensures { (d j b : ℕ) → 1 ≤ d → d ≤ 64 → j < 16 → has b (get_or columns.new (16 * (d - 1) + j) 0) ≡ (has b (get_or columns.old (16 * (d - 1) + j) 0) || (has d set && (eqb j i && has b bit))) }
{
    let mut rest = set;
    while rest != 0 {
        let d = drive_sets::lowest(rest);
        let k = WORDS * place(d) + i;
        columns[k] = columns[k] | bit;
        rest = drive_sets::without_lowest(rest);
    }
}

// The columns of all drives, from empty ones.
pub(crate) fn fill(columns: &mut [u64], sets: &[u64])
    requires { columns.old ≡ replicate 1024 0 }
    ensures { Columns columns.new sets.now }
{
    for at in 0..sets.len().min(MAX_CORES) {
        let bit = drive_sets::single(Drive((at % 64 + 1) as u8));
        mark(columns, sets[at], at / 64, bit);
    }
}

// ---- the sets that m misses, and those that it meets in one drive

// The marks once a drive more is taken, whose column this is. Of the sets that were missed those that it meets are met
// once now; of those met once, those that it meets are met twice.
pub(crate) fn take_drive(
    column: &[u64],
    words: usize,
    missed: &[u64],
    once: &[u64],
    left: &mut [u64],
    alone: &mut [u64],
)
    requires { (words ≤ length column.now) × (words ≤ length missed.now) × (words ≤ length once.now) × (words ≤ length left.old) × (words ≤ length alone.old) }
    ensures { ((i : ℕ) → i < words → get_or left.new i 0 ≡ minus (get_or missed.now i 0) (get_or column.now i 0)) × ((i : ℕ) → i < words → get_or alone.new i 0 ≡ union (minus (get_or once.now i 0) (get_or column.now i 0)) (common (get_or missed.now i 0) (get_or column.now i 0))) }
{
    for i in 0..words {
        let held = column[i];
        left[i] = drive_sets::minus(missed[i], held);
        alone[i] = drive_sets::minus(once[i], held) | (missed[i] & held);
    }
}

// The first set behind the first `seen`, which m meets, that m misses: the first one marked. The marks may have bits
// behind the last set.
pub(crate) fn next_marked(
    sets: &[u64],
    words: usize,
    missed: &[u64],
    seen: usize,
    m: u64,
) -> Option<usize>
    requires { (seen ≤ length sets.now) × (hits (take seen sets.now) m ≡ true) × (words ≤ 16) × Marked words missed.now sets.now (λ s. not (meets s m)) }
    ensures { result ≡ missed_from (seen + 1) (drop seen sets.now) m }
{
    if 64 * words < sets.len() {
        return next_missed(sets, seen, m);
    }
    for i in seen / 64..words {
        let word = missed[i];
        if word != 0 {
            let at = 64 * i + place(drive_sets::lowest(word));
            if at < sets.len() {
                return Some(at + 1);
            }
            return None;
        }
    }
    None
}

// ---- what marked sets share

// The drives of c that are in each set that the word marks, its first place being `base`.
fn shared_in_word(sets: &[u64], base: usize, word: u64, c: u64) -> u64
    requires { base ≤ 1024 }
    ensures { (x : ℕ) → (has x result ≡ true) ↔ ((has x c ≡ true) × InMarked sets.now base word x) }
{
    let mut rest = word;
    let mut all = c;
    while rest != 0 && all != 0 {
        let at = base + place(drive_sets::lowest(rest));
        if sets.len() <= at {
            return all;
        }
        all = all & sets[at];
        rest = drive_sets::without_lowest(rest);
    }
    all
}

// The drives of c that are in each set that is marked in both.
fn shared(sets: &[u64], column: &[u64], once: &[u64], c: u64) -> u64
    requires { (length sets.now ≤ 1024) × (length sets.now ≤ 64 * length column.now) × (length sets.now ≤ 64 * length once.now) }
    ensures { (x : ℕ) → (has x result ≡ true) ↔ ((has x c ≡ true) × ((i : ℕ) → InMarked sets.now (64 * i) (common (get_or once.now i 0) (get_or column.now i 0)) x)) }
{
    // By a place: `for` over the words was slower, up to a tenth of the whole search.
    let mut i = 0;
    let mut all = c;
    while 64 * i < sets.len() && all != 0 {
        all = shared_in_word(sets, 64 * i, once[i] & column[i], all);
        i += 1;
    }
    all
}

// The marks of the first n places of the first word.
fn first_places(n: usize) -> u64
    ensures { (b : ℕ) → has b result ≡ true → b ≤ n }
{
    if n < 64 {
        return drive_sets::full(n as u8);
    }
    0xffff_ffff_ffff_ffff
}

// Of the first n sets, as far as the word marks them, those that share no drive with c: they are in none of its columns.
pub(crate) fn apart(columns: &[u64], word: u64, n: usize, c: u64) -> u64
    requires { 1024 ≤ length columns.now }
    ensures { (b : ℕ) → has b result ≡ true → (has b word ≡ true) × (b ≤ n) × ((x : ℕ) → has x c ≡ true → has b (get_or columns.now (16 * (x - 1)) 0) ≡ false) }
{
    let mut far = word & first_places(n);
    let mut rest = c;
    while rest != 0 && far != 0 {
        let k = WORDS * place(drive_sets::lowest(rest));
        far = drive_sets::minus(far, columns[k]);
        rest = drive_sets::without_lowest(rest);
    }
    far
}

// The same as `shared`, where some of the sets that are marked are known to share no drive with c: most often one of
// them decides.
pub(crate) fn shared_quickly(sets: &[u64], column: &[u64], once: &[u64], far: u64, c: u64) -> u64
    requires { (1 ≤ length column.now) × (length sets.now ≤ 1024) × (length sets.now ≤ 64 * length column.now) × (length sets.now ≤ 64 * length once.now) × Apart sets.now once.now far c }
    ensures { (x : ℕ) → (has x result ≡ true) ↔ ((has x c ≡ true) × ((i : ℕ) → InMarked sets.now (64 * i) (common (get_or once.now i 0) (get_or column.now i 0)) x)) }
{
    if drive_sets::meets(far, column[0]) {
        return 0;
    }
    shared(sets, column, once, c)
}
