// Whole-table searches over a lent table of u64, each the halving rule with its own test.
#![tactic(auto)]

ghost use Rattle.std.specs.Prelude.{◌≡◌, ◌<◌, length};
ghost use Rattle.rules.specs.Reading.{halving, at_most};
ghost use Rattle.index_stream.specs.Searches.{below, turned, Finds};

// The halving over a table with the test "entry at most v": in a sorted table, how many are at most v.
pub fn bisect_right(table: &[u64], v: u64) -> u64
    ensures { result ≡ (halving (at_most table.now v) (length table.now)).number }
{
    halving::halving(table.len() as u64, |i| table[i as usize] <= v)
}

// The halving over a table with the test "entry below v": in a sorted table, how many are below v.
pub fn bisect_left(table: &[u64], v: u64) -> u64
    ensures { result ≡ (halving (below table.now v) (length table.now)).number }
{
    halving::halving(table.len() as u64, |i| table[i as usize] < v)
}

// What a search found, and up to where it finds the same.
#[derive(Clone, Copy)]
pub struct Found {
    pub number: u64,
    pub until: u64,
}

// bisect_right for v, and the least entry that it turned down, or the limit: it finds the same for every value from v up to there.
pub fn bisect_right_until(table: &[u64], v: u64, limit: u64) -> Found
    requires { v < limit }
    ensures { Finds table.now (length table.now) v limit result × (result.until ≡ turned table.now v (length table.now) limit) }
{
    let mut low: u64 = 0;
    let mut high = table.len() as u64;
    let mut until = limit;
    loop {
        if high <= low {
            break Found { number: low, until };
        }
        let mid = (low + high) / 2;
        let entry = table[mid as usize];
        if entry <= v {
            low = mid + 1;
        } else {
            high = mid;
            until = entry.min(until);
        }
    }
}
