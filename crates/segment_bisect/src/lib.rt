// Where a value would be ordered in one segment, over lent tables, which may be damaged.
#![tactic(auto)]

ghost use Rattle.std.specs.Prelude.{◌≡◌, ◌<◌, ◌+◌};
ghost use Rattle.rules.specs.Record.{start, offset, mark};
ghost use Rattle.rules.specs.Reading.{delta_search, bisect_in};
ghost use Rattle.rules.specs.Refusals.{answer_of, index_of};

use rules::{Refusal, Width};
use tables::Segment;

// The first position of segment g whose value is not below v, or the one behind its last, as halving finds it.
#[tactic(auto, unfolding(rules::specs::Reading::bisect_in, rules::specs::Refusals::width_at))]
pub fn bisect_in(g: Segment<'_>, v: u64) -> Result<u64, Refusal>
    ensures { answer_of result ≡ bisect_in (index_of g.entry.counted.index.now) g.entry.k v }
{
    let start = g.start();
    let base = g.base();
    if g.counted.index.state.length <= start {
        return Err(Refusal::Damaged);
    }
    if base == v {
        return Ok(start);
    }
    if v < base {
        return Err(Refusal::Damaged);
    }
    let Width::Of(w) = g.width() else {
        return Ok(start + 1);
    };
    delta_search(g, v - base, w as u64)
}

// The deltas of segment g searched for the first not below `gap`.
#[tactic(auto, using(laws::proofs::Tests::left, laws::proofs::Tests::taken, laws::proofs::Halving::halving_edge), unfolding(rules::specs::Reading::delta_search))]
fn delta_search(g: Segment<'_>, gap: u64, width: u64) -> Result<u64, Refusal>
    requires { start (index_of g.counted.index.now) g.k < g.counted.index.now.state.length }
    ensures { let x = g.entry.counted.index.now in let i = index_of x in let k = g.entry.k in
        answer_of result ≡ delta_search x.state.minimum x.state.used x.state.length x.bytes.now (start i k) (offset i k) (mark i (k + 1)) gap width }
{
    let index = g.counted.index;
    let s = index.state;
    let start = g.start();
    let offset = g.offset();
    let end = tables::mark(index, g.k + 1);
    if width < s.minimum || 8 < width || end < offset || s.used < end {
        return Err(Refusal::Damaged);
    }
    let n = (end - offset) / width;
    if s.length - start - 1 < n {
        return Err(Refusal::Damaged);
    }
    let low = delta::count_below(index.bytes, offset, width, n, gap);
    Ok(start + 1 + low)
}
