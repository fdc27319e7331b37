// The search for the minimal hitting sets: Berge's method, depth first, with fuel and, where asked, with look-ahead.
// Each is found once; a call goes one drive deeper, so the calls are at most 64 deep, and no list of candidates grows.
ghost use Rattle.std.specs.Prelude.{◌≡◌, true, false, not, ◌&&◌, ℕ, ◌+◌, ◌-◌, ◌≤◌, ◌<◌, eqb, leb, ltb, length, get_or, take, drop, set};
ghost use Rattle.drive_sets.specs.Lists.{filter};
ghost use Rattle.drive_sets.specs.Masks.{has, common, minus, meets, size, drives};
ghost use Rattle.survivor_tables.specs.Hitting.{hits, Minimal, critical, search, minimals};
ghost use Rattle.hitting_sets.specs.LookAhead.{in_all, privates, forbidden, covered, cannot_extend};
ghost use Rattle.hitting_sets.specs.Candidates.{Candidates};
ghost use Rattle.hitting_sets.specs.Fuel.{Searched};
ghost use Rattle.hitting_sets.specs.Marks.{Marked, Columns, Tracked};

use crate::marks::{
    COLUMNS, WORDS, apart, column, fill, next_marked, place, shared_quickly, take_drive, words_for,
};
use set_orders::MOST_COUNT;

// ---- what is forbidden

// For each drive, at its place, the drives that are in every set that is private to it in m.
fn in_all_private(sets: &[u64], m: u64) -> [u64; 64]
    ensures { (d : ℕ) → 1 ≤ d → d ≤ 64 → get_or result (d - 1) 0 ≡ in_all (privates sets.now m d) }
{
    let mut all = [0xffff_ffff_ffff_ffff; 64];
    for s in sets.iter().rev() {
        let met = *s & m;
        if drive_sets::is_single(met) {
            let k = place(drive_sets::lowest(met));
            all[k] = *s & all[k];
        }
    }
    all
}

// The drives outside m that are in every private set of some drive of m.
fn forbidden(sets: &[u64], m: u64) -> u64
    ensures { result ≡ forbidden sets.now m (drives m) }
{
    let all = in_all_private(sets, m);
    let mut rest = m;
    let mut bar = 0;
    while rest != 0 {
        let d = drive_sets::lowest(rest);
        let k = place(d);
        bar = bar | drive_sets::minus(all[k], m);
        rest = drive_sets::without_lowest(rest);
    }
    bar
}

// ---- look-ahead

// Some set that m misses has its drives outside the bar in p: it lies within the bar and p, outside m.
fn covered(sets: &[u64], m: u64, bar: u64, p: u64) -> bool
    ensures { result ≡ covered sets.now m bar p }
{
    let within = drive_sets::minus(bar | p, m);
    sets.iter().any(|s| drive_sets::subset(*s, within))
}

// The drives of m that are critical among the sets that the sets ahead do not cover. That a set is covered is asked
// last, and only of one that would add a drive: it is the dearest of the tests.
fn critical_uncovered(sets: &[u64], ahead: &[u64], m: u64, bar: u64) -> u64
    ensures { result ≡ critical (filter (λ s. not (covered ahead.now m bar s)) sets.now) m }
{
    let mut found = 0;
    for s in sets.iter().rev() {
        let shared = *s & m;
        if !drive_sets::subset(shared, found)
            && drive_sets::is_single(shared)
            && !covered(ahead, m, bar, *s)
        {
            found = shared | found;
        }
    }
    found
}

// Some drive of m, which meets the first `seen` sets, has no private set that can stay private: no minimal hitting set
// holds m. Only a set that is missed covers, so only those ahead are asked.
fn cannot_extend(sets: &[u64], seen: usize, m: u64) -> bool
    requires { (seen ≤ length sets.now) × (hits (take seen sets.now) m ≡ true) }
    ensures { result ≡ cannot_extend sets.now m }
{
    let bar = forbidden(sets, m);
    critical_uncovered(sets, &sets[seen..], m, bar) != m
}

// ---- the search

// The drives of the set at `next`, which m misses, that the sets before it do not forbid: by the marks of the private
// sets of each drive of m, or by the sets themselves where they are too many to be marked.
fn allowed(sets: &[u64], columns: &[u64], words: usize, next: usize, m: u64, once: &[u64]) -> u64
    requires { (next < length sets.now) × (words ≤ 16) × Columns columns.now sets.now × Marked words once.now sets.now (λ s. eqb (size (common s m)) 1) × (meets (get_or sets.now next 0) m ≡ false) }
    ensures { result ≡ minus (get_or sets.now next 0) (forbidden (take next sets.now) m (drives m)) }
{
    let mut c = sets[next];
    if 64 * words < sets.len() {
        return drive_sets::minus(c, forbidden(&sets[0..next], m));
    }
    let mut far = apart(columns, once[0], next, c);
    let mut rest = m;
    while rest != 0 {
        let d = drive_sets::lowest(rest);
        let all = shared_quickly(&sets[0..next], column(columns, d), once, far, c);
        if all != 0 {
            c = drive_sets::minus(c, all);
            far = apart(columns, once[0], next, c);
        }
        rest = drive_sets::without_lowest(rest);
    }
    c
}

// The drives of the set at `next`, which m misses, with which the search goes on from m, a minimal hitting set of the
// sets before it: those that these sets do not forbid; none where the look-ahead is asked for and finds that m cannot
// be extended.
fn candidates(
    look_ahead: bool,
    sets: &[u64],
    columns: &[u64],
    words: usize,
    next: usize,
    m: u64,
    once: &[u64],
) -> u64
    requires { (next < length sets.now) × Minimal (take next sets.now) m × (meets (get_or sets.now next 0) m ≡ false) × (words ≤ 16) × Columns columns.now sets.now × Marked words once.now sets.now (λ s. eqb (size (common s m)) 1) }
    ensures { Candidates sets.now next m result × ((d : ℕ) → has d result ≡ true → has d m ≡ false) }
{
    if look_ahead && cannot_extend(sets, next, m) {
        return 0;
    }
    allowed(sets, columns, words, next, m, once)
}

// How a search goes: with look-ahead or without, and whether it spends fuel.
#[derive(Clone, Copy)]
pub struct Mode {
    pub look_ahead: bool,
    pub limited: bool,
}

// How many are found, and the fuel that is left.
#[derive(Clone, Copy)]
pub struct Tally {
    pub found: usize,
    pub left: usize,
}

// The fuel after one branching more.
fn spend(mode: Mode, tally: Tally) -> Tally
    ensures { (result.found ≡ tally.found) × (mode.limited ≡ false → result.left ≡ tally.left) }
{
    if mode.limited {
        let left = if 0 < tally.left { tally.left - 1 } else { 0 };
        return Tally {
            found: tally.found,
            left,
        };
    }
    tally
}

// There is fuel left, and not yet more found than there is room.
fn goes_on(tally: Tally, room: usize) -> bool
    ensures { result ≡ (leb tally.found room && ltb 0 tally.left) }
{
    tally.found <= room && 0 < tally.left
}

// One found more, put behind the others if there is room.
fn put(out: &mut [u64], m: u64, tally: Tally) -> Tally
    requires { tally.found ≤ length out.old }
    ensures { (result.found ≡ tally.found + 1) × (result.left ≡ tally.left) × (out.new ≡ set out.old tally.found m) }
{
    let at = tally.found;
    if at < out.len() {
        out[at] = m;
    }
    Tally {
        found: at + 1,
        left: tally.left,
    }
}

// A dead end is a place at which no branch goes on. They are counted, up to a bound, so that a later search can begin
// with the sets that stand there: one more at this place if no drive is left. The counts decide only an order of the
// sets, so the contracts leave them free.
fn note(ends: &mut [u64], i: usize, drives: u64) {
    if drives == 0 && i < ends.len() {
        let count = ends[i];
        if count < MOST_COUNT {
            ends[i] = count + 1;
        }
    }
}

// The minimal hitting sets that the search lists from m on, a minimal hitting set of the sets before `next` that misses
// that one, put into `out` behind those found; one more than the room says that there are more. Where no fuel is left
// some may be missing. The marks, of n words, are of the sets that m misses and of those that it meets once. A set at
// which no branch goes on is a dead end, and counted as one. A call goes one drive deeper, so the calls are at most 64
// deep; where no set is missed there is no call.
// The sets, their columns and n are parameters each: as one struct they made the search slower, up to a fifth.
fn search_from(
    mode: Mode,
    sets: &[u64],
    columns: &[u64],
    n: usize,
    next: usize,
    m: u64,
    missed: &[u64],
    once: &[u64],
    out: &mut [u64],
    tally: Tally,
    ends: &mut [u64],
) -> Tally
    requires { (next < length sets.now) × (meets (get_or sets.now next 0) m ≡ false) × (tally.found ≤ length out.old) × Minimal (take next sets.now) m × Tracked n columns.now sets.now m missed.now once.now }
    ensures { Searched mode.limited tally.left out.old out.new tally.found result.found result.left (search (take next sets.now) (drop next sets.now) m) }
{
    let room = out.len();
    let after = next + 1;
    let look_ahead = mode.look_ahead;
    let mut rest = candidates(look_ahead, sets, columns, n, next, m, once);
    note(ends, next, rest);
    let mut sum = spend(mode, tally);
    let mut left = [0u64; WORDS];
    let mut alone = [0u64; WORDS];
    while rest != 0 && goes_on(sum, room) {
        let d = drive_sets::lowest(rest);
        let t = drive_sets::insert(m, d);
        let held = column(columns, d);
        take_drive(held, n, missed, once, &mut left, &mut alone);
        let first = next_marked(sets, n, &left, after, t);
        match first {
            None => sum = put(out, t, sum),
            Some(at) => {
                let i = at - 1;
                sum = search_from(mode, sets, columns, n, i, t, &left, &alone, out, sum, ends);
            }
        }
        rest = drive_sets::without_lowest(rest);
    }
    sum
}

// The minimal hitting sets of the sets, each once, in the search's order: into `out`, as long as there is room, and
// their number; one more than the room says that there are more. Where no fuel is left some may be missing.
pub fn search_all(mode: Mode, sets: &[u64], out: &mut [u64], fuel: usize, ends: &mut [u64]) -> Tally
    ensures { Searched mode.limited fuel out.old out.new 0 result.found result.left (minimals sets.now) }
{
    let none = Tally {
        found: 0,
        left: fuel,
    };
    let words = words_for(sets.len());
    let mut columns = [0u64; COLUMNS];
    fill(&mut columns, sets);
    let missed = [0xffff_ffff_ffff_ffff; WORDS];
    let once = [0u64; WORDS];
    let first = next_marked(sets, words, &missed, 0, 0);
    let Some(at) = first else {
        return put(out, 0, none);
    };
    let i = at - 1;
    search_from(
        mode, sets, &columns, words, i, 0, &missed, &once, out, none, ends,
    )
}
