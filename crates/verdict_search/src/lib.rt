// The verdict on k: whether any k sets of a normal table, repeats allowed, share a drive (k-Intersection), and for a no
// the first positions whose sets share none, with the blocks of a split of which none is empty or holds a core.
#![tactic(auto)]

ghost use Rattle.std.specs.Prelude.{◌≡◌, true, ◌&&◌, ℕ, suc, ◌≤◌, leb, length, take, drop, IfSome};
ghost use Rattle.drive_sets.specs.Lists.{elem};
ghost use Rattle.verdict_search.specs.Verdicts.{sets_at, disjoint, blocks_of, verdict_on};
ghost use Rattle.splits.specs.Splits.{fill_empty};
ghost use Rattle.verdict_search.specs.Meaning.{in_every};
ghost use Rattle.verdict_search.specs.Held.{verdict_of, no_verdict, answer_of, with_blocks, in_four, found_in};
ghost use Rattle.verdict_search.specs.Columns.{LackingOf};
ghost use Rattle.drive_sets.specs.Limits.{max_sets};

use crate::columns::{Lacking, lacking_of};
use crate::sharing::all_share;
use survivor_tables::MAX_SETS;
use survivor_tables::missed::next_missed;

mod columns;
mod sharing;

// k, the number of blocks.
pub const MIN_BLOCKS: u8 = 2;

pub const MAX_BLOCKS: u8 = 4;

// From so many sets on the columns are worth their making.
const MANY_SETS: usize = 8;

// k, the number of blocks, is 2 to 4.
pub fn is_block_count(k: u8) -> bool
    ensures { result ≡ (leb 2 k && leb k 4) }
{
    MIN_BLOCKS <= k && k <= MAX_BLOCKS
}

// The verdict. A no has the first k positions of sets that share no drive, and the k blocks, with zeros behind them.
#[derive(Clone, Copy)]
pub enum Verdict {
    Yes,
    No {
        positions: [u8; 4],
        blocks: [u64; 4],
    },
}

// A no of zeros alone, where there is no verdict.
pub fn no_verdict() -> Verdict
    ensures { result ≡ no_verdict }
{
    Verdict::No {
        positions: [0u8; 4],
        blocks: [0u64; 4],
    }
}

// In what follows a table is a slice, with its bound in each contract: every loop goes by the slice, and a struct of both
// would be opened in each.

// The first two positions from the place `from` on, not falling, whose sets have no drive of `shared` in common.
fn first_pair(table: &[u64], from: usize, shared: u64) -> Option<[u8; 4]>
    requires { length table.now ≤ max_sets }
    ensures { result ≡ found_in (disjoint 2 (suc from) (drop from table.now) shared) }
{
    for i in from..table.len() {
        if let Some(position) = next_missed(table, i, shared & table[i]) {
            let first = (i + 1) as u8;
            let second = position as u8;
            return Some([first, second, 0, 0]);
        }
    }
    None
}

// The first k positions from the place `from` on, not falling, whose sets have no drive of `shared` in common. Where
// any k of all the sets share one, there are none: where there are columns this is asked first, so that of the sets
// before each position that is found no pair is tried.
fn disjoint(
    k: u8,
    table: &[u64],
    lacking: Option<&Lacking>,
    from: usize,
    shared: u64,
) -> Option<[u8; 4]>
    requires { (2 ≤ k) × (length table.now ≤ max_sets) × IfSome lacking (λ l. LackingOf table.now l.now shared) }
    ensures { result ≡ found_in (disjoint k (suc from) (drop from table.now) shared) }
{
    if let Some(l) = lacking {
        if all_share(k, table, l, shared) {
            return None;
        }
    }
    if k == 2 {
        return first_pair(table, from, shared);
    }
    for i in from..table.len() {
        if let Some(later) = disjoint(k - 1, table, lacking, i, shared & table[i]) {
            return Some([(i + 1) as u8, later[0], later[1], later[2]]);
        }
    }
    None
}

// The first k positions, not falling, whose sets have no drive of the frame in common. For two positions, or few sets,
// the columns would cost more than they save: few sets are searched with none.
fn first_disjoint(k: u8, table: &[u64], frame: u64) -> Option<[u8; 4]>
    requires { (2 ≤ k) × (length table.now ≤ max_sets) }
    ensures { result ≡ found_in (disjoint k 1 table.now frame) }
{
    if k == 2 {
        return first_pair(table, 0, frame);
    }
    if table.len() < MANY_SETS {
        return disjoint(k, table, None, 0, frame);
    }
    let lacking = lacking_of(table, frame);
    disjoint(k, table, Some(&lacking), 0, frame)
}

// Block i holds the drives outside the i-th named set and in no earlier block.
fn form_blocks(k: u8, n: u8, table: &[u64], positions: [u8; 4]) -> [u64; 4]
    requires { (k ≤ 4) × (length positions ≡ 4) × ((p : ℕ) → elem p (take k positions) ≡ true → (1 ≤ p) × (p ≤ length table.now)) }
    ensures { result ≡ in_four (blocks_of n 0 (sets_at table.now (take k positions))) }
{
    let mut blocks = [0u64; 4];
    let mut taken = 0;
    for i in 0..usize::from(k) {
        let place = usize::from(positions[i]) - 1;
        let block = drive_sets::outside(n, table[place] | taken);
        blocks[i] = block;
        taken |= block;
    }
    blocks
}

// A no with these positions: the blocks as they are formed, and then the moves.
fn no_at(k: u8, n: u8, table: &[u64], positions: [u8; 4]) -> Verdict
    requires { (k ≤ 4) × (length positions ≡ 4) × ((p : ℕ) → elem p (take k positions) ≡ true → (1 ≤ p) × (p ≤ length table.now)) }
    ensures { result ≡ with_blocks positions (fill_empty (blocks_of n 0 (sets_at table.now (take k positions)))) }
{
    let mut blocks = form_blocks(k, n, table, positions);
    splits::fill_empty(&mut blocks[..usize::from(k)]);
    Verdict::No { positions, blocks }
}

// The drives of `shared` that every set has.
fn in_every(table: &[u64], shared: u64) -> u64
    ensures { result ≡ in_every shared table.now }
{
    table.iter().fold(shared, |common, &set| common & set)
}

// The verdict on a normal table. A drive that every set has is in any k of them, so there is nothing to search for.
fn verdict_within(k: u8, n: u8, table: &[u64]) -> Verdict
    requires { (2 ≤ k) × (k ≤ 4) × (length table.now ≤ max_sets) }
    ensures says { verdict_of result k ≡ verdict_on k n table.now }
    ensures whole { result ≡ answer_of (verdict_on k n table.now) }
{
    let frame = drive_sets::full(n);
    if in_every(table, frame) == 0 {
        if let Some(positions) = first_disjoint(k, table, frame) {
            return no_at(k, n, table, positions);
        }
    }
    Verdict::Yes
}

// The verdict on a normal table, where k is 2 to 4 and there are at most 128 sets; else a no of zeros alone.
pub fn find_verdict(k: u8, n: u8, table: &[u64]) -> Verdict
    ensures found { 2 ≤ k → k ≤ 4 → length table.now ≤ max_sets → (verdict_of result k ≡ verdict_on k n table.now) × (result ≡ answer_of (verdict_on k n table.now)) }
    ensures zeros { (2 ≤ k → k ≤ 4 → length table.now ≤ max_sets → ⊥) → result ≡ no_verdict }
{
    if !is_block_count(k) {
        return no_verdict();
    }
    if MAX_SETS < table.len() {
        return no_verdict();
    }
    verdict_within(k, n, table)
}
