// Splits of a frame into blocks: the moves that leave no block empty.
#![tactic(auto)]

ghost use Rattle.std.specs.Prelude.{◌≡◌, ◌<◌, length};
ghost use Rattle.splits.specs.Splits.{first_empty, first_large, with_move, moved, fill_empty};

use drive_sets::MAX_DRIVES;
use survivor_tables::missed::first_missed;

// The first empty block: the first that has none of the 64 drives.
fn first_empty(blocks: &[u64]) -> Option<usize>
    ensures { result ≡ first_empty blocks.now }
{
    first_missed(blocks, drive_sets::full(MAX_DRIVES))
}

// The first block with two drives or more.
fn first_large(blocks: &[u64]) -> Option<usize>
    ensures { result ≡ first_large blocks.now }
{
    for (i, &block) in blocks.iter().enumerate() {
        if 1 < drive_sets::size(block) {
            return Some(i + 1);
        }
    }
    None
}

// The lowest drive of the block at one place moves to another place.
fn move_lowest(blocks: &mut [u64], from: usize, to: usize)
    requires { (from < length blocks.old) × (to < length blocks.old) }
    ensures { blocks.new ≡ with_move blocks.old from to }
{
    let block = blocks[from];
    blocks[from] = drive_sets::without_lowest(block);
    blocks[to] = drive_sets::single(drive_sets::lowest(block));
}

// One move, where a block is empty: the lowest drive of the first block with two or more, to the first empty block.
fn move_one(blocks: &mut [u64])
    ensures { blocks.new ≡ moved blocks.old }
{
    let (Some(from), Some(to)) = (first_large(blocks), first_empty(blocks)) else {
        return;
    };
    move_lowest(blocks, from - 1, to - 1)
}

// Moves while a block is empty: as many as there are blocks are enough, and where none is empty nothing moves.
pub fn fill_empty(blocks: &mut [u64])
    ensures { blocks.new ≡ fill_empty blocks.old }
{
    for _ in 0..blocks.len() {
        move_one(blocks);
    }
}
