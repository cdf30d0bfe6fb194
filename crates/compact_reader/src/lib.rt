// Reads of an index over lent tables, which may be damaged.
#![tactic(auto)]

ghost use Rattle.std.specs.Prelude.{◌≡◌, ◌≤◌};
ghost use Rattle.rules.specs.Push.{length_rule, size_rule};
ghost use Rattle.rules.specs.Reading.{starts_up_to, get_rule, target_end, target_rule};
ghost use Rattle.rules.specs.Refusals.{index_of, answer_of, target_of};

use rules::{CompactReader, Refusal, Target};
use tables::Counted;

// How many values the index holds.
#[tactic(auto, unfolding(rules::specs::Push::length_rule))]
pub fn length(x: &CompactReader<'_>) -> Result<u64, Refusal>
    ensures { answer_of result ≡ length_rule (index_of x.now) }
{
    tables::check_counts(x)?;
    Ok(x.state.length)
}

// How many bytes the index takes: three numbers a segment, its widths and its data.
#[tactic(auto, unfolding(rules::specs::Push::size_rule))]
pub fn size(x: &CompactReader<'_>) -> Result<u64, Refusal>
    ensures { answer_of result ≡ size_rule (index_of x.now) }
{
    let s = tables::check_counts(x)?.index.state;
    Ok(24 * s.segments + s.widths + s.used)
}

// The value at position p.
#[tactic(auto, unfolding(rules::specs::Reading::get_rule))]
pub fn get(x: &CompactReader<'_>, p: u64) -> Result<u64, Refusal>
    ensures { answer_of result ≡ get_rule (index_of x.now) p }
{
    let counted = tables::check_counts(x)?;
    if x.state.length <= p {
        return Err(Refusal::Position);
    }
    let k = starts_up_to(counted, p);
    if k == 0 {
        return Err(Refusal::Damaged);
    }
    segment_reader::read_in(counted.segment(k - 1), p)
}

// The number that halving over starts for p finds: of a sound index, the segments that start at p or before.
#[tactic(auto, using(laws::proofs::InUse::halving_in_use, laws::proofs::Halving::halving_edge), unfolding(rules::specs::Reading::starts_up_to))]
fn starts_up_to(x: Counted<'_>, p: u64) -> u64
    ensures found { result ≡ starts_up_to (index_of x.entry.index.now) p }
    ensures within { result ≤ x.entry.index.now.state.segments }
{
    index_stream::bisect_right(x.starts(), p)
}

// The target of position p, where t is the end of the last one: from the value at p to the smaller of the next value and t.
#[tactic(auto, unfolding(rules::specs::Reading::target_rule))]
pub fn target_range(x: &CompactReader<'_>, p: u64, t: u64) -> Result<Target, Refusal>
    ensures { target_of result ≡ target_rule (index_of x.now) p t }
{
    let start = get(x, p)?;
    let end = target_end(x, p, t)?;
    Ok(Target { start, end })
}

// Where the target of position p ends: t for the last position, otherwise the smaller of the next value and t.
#[tactic(auto, unfolding(rules::specs::Reading::target_end))]
fn target_end(x: &CompactReader<'_>, p: u64, t: u64) -> Result<u64, Refusal>
    ensures { answer_of result ≡ target_end (index_of x.now) p t }
{
    let length = x.state.length;
    if length < 2 || length - 2 < p {
        return Ok(t);
    }
    Ok(get(x, p + 1)?.min(t))
}
