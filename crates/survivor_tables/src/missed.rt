// The first set of a list that some drives miss, by its position.
ghost use Rattle.std.specs.Prelude.{◌≡◌, ◌+◌, drop};
ghost use Rattle.survivor_tables.specs.Hitting.{missed_from, first_missed};

// The first set behind the first `seen` that the drives of m miss; none where they meet all of these.
pub fn next_missed(sets: &[u64], seen: usize, m: u64) -> Option<usize>
    ensures { result ≡ missed_from (seen + 1) (drop seen sets.now) m }
{
    for i in seen..sets.len() {
        if !drive_sets::meets(sets[i], m) {
            return Some(i + 1);
        }
    }
    None
}

// The first of all the sets; none where the drives of m meet them all.
pub fn first_missed(sets: &[u64], m: u64) -> Option<usize>
    ensures { result ≡ first_missed sets.now m }
{
    next_missed(sets, 0, m)
}
