// A walk over a range of positions: opening it, and one step of it, with the cursor passed by value.
#![tactic(auto)]

ghost use Rattle.std.specs.Prelude.{◌≡◌};
ghost use Rattle.rules.specs.Reading.{iter_rule, step_rule};
ghost use Rattle.rules.specs.Refusals.{index_of, answer_of, step_of};

use rules::{CompactReader, Cursor, Refusal, Stayed};
use std::ops::Range;

// Opens a walk over a range of positions: answers its cursor, and reads no entry.
#[tactic(auto, unfolding(rules::specs::Reading::iter_rule))]
pub fn iter(x: &CompactReader<'_>, range: &Range<u64>) -> Result<Cursor, Refusal>
    ensures { answer_of result ≡ iter_rule (index_of x.now) range.now.start range.now.end }
{
    tables::check_range(x, range)?;
    Ok(Cursor {
        next: range.start,
        end: range.end,
    })
}

// One step: the value at next and the cursor moved by one; or that the walk is done; or a refusal and the cursor as it was.
#[tactic(auto, unfolding(rules::specs::Reading::step_rule))]
pub fn step(c: Cursor, x: &CompactReader<'_>) -> Result<Option<(u64, Cursor)>, Stayed>
    ensures { step_of result ≡ step_rule (index_of x.now) c }
{
    if c.end <= c.next {
        return Ok(None);
    }
    let value = compact_reader::get(x, c.next).map_err(|refusal| Stayed { cursor: c, refusal })?;
    let moved = Cursor {
        next: c.next + 1,
        end: c.end,
    };
    Ok(Some((value, moved)))
}
