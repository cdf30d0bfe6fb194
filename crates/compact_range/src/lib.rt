// get_range on any tables: what the search finds ahead, then one pass that decides and one that writes.
#![tactic(auto)]

ghost use Rattle.std.specs.Prelude.{◌≡◌};
ghost use Rattle.rules.specs.Reading.{ranged, range_rule};
ghost use Rattle.rules.specs.Refusals.{answer_of, index_of};

use range_find::Finder;
use rules::{CompactReader, Refusal};
use std::ops::Range;

// Puts the range's values into the output from its first entry on and answers how many; if any of them is damaged, none is written.
#[tactic(auto, using(crate::proofs::Whole::range_damaged, crate::proofs::Whole::range_written), unfolding(rules::specs::Reading::range_rule))]
pub fn get_range(x: &CompactReader<'_>, range: &Range<u64>, out: &mut [u64]) -> Result<u64, Refusal>
    ensures { ranged (answer_of result) out.new ≡ range_rule (index_of x.now) range.now.start range.now.end out.old }
{
    let c = tables::check_range(x, range)?;
    let count = range.end - range.start;
    if (out.len() as u64) < count {
        return Err(Refusal::OutputRoom);
    }
    let finder = Finder::new(c.starts(), range);
    if !range_reads::range_reads(c, &finder, range.start) {
        return Err(Refusal::Damaged);
    }
    range_write::range_write(c, &finder, range.start, out);
    Ok(count)
}
