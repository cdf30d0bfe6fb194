// Where a value would be ordered, in an index over lent tables, which may be damaged.
#![tactic(auto)]

ghost use Rattle.std.specs.Prelude.{◌≡◌};
ghost use Rattle.rules.specs.Reading.{bisect_rule, bisect_range_rule};
ghost use Rattle.rules.specs.Refusals.{answer_of, index_of};

use rules::{CompactReader, Refusal};
use std::ops::Range;
use tables::Counted;

// The first position whose value is not below v, or the length if there is none, as halving finds it: exact where the values never fall.
#[tactic(auto, unfolding(rules::specs::Reading::bisect_rule))]
pub fn bisect_left(x: &CompactReader<'_>, v: u64) -> Result<u64, Refusal>
    ensures { answer_of result ≡ bisect_rule (index_of x.now) v }
{
    bisect_counted(tables::check_counts(x)?, v)
}

// The answer of bisect_left, raised to at least the range's start and lowered to at most its end.
#[tactic(auto, unfolding(rules::specs::Reading::bisect_range_rule))]
pub fn bisect_range_left(x: &CompactReader<'_>, range: &Range<u64>, v: u64) -> Result<u64, Refusal>
    ensures { answer_of result ≡ bisect_range_rule (index_of x.now) range.now.start range.now.end v }
{
    let c = tables::check_range(x, range)?;
    let k = bisect_counted(c, v)?;
    Ok(k.clamp(range.start, range.end))
}

// The answer of bisect_left in an index that keeps the counts rule.
#[tactic(auto, using(laws::proofs::InUse::halving_in_use, laws::proofs::Halving::halving_edge, laws::proofs::Counts::facts_counts), unfolding(rules::specs::Reading::bisect_rule, rules::specs::Reading::bases_up_to))]
fn bisect_counted(x: Counted<'_>, v: u64) -> Result<u64, Refusal>
    ensures { answer_of result ≡ bisect_rule (index_of x.entry.index.now) v }
{
    if x.index.state.length == 0 {
        return Ok(0);
    }
    let k = index_stream::bisect_right(x.bases(), v);
    if k == 0 {
        return Ok(0);
    }
    segment_bisect::bisect_in(x.segment(k - 1), v)
}
