// A walk whose cursor the caller lends: each step moves it in place.
#![tactic(auto)]

ghost use Rattle.std.specs.Prelude.{◌≡◌};
ghost use Rattle.rules.specs.Reading.{step_rule, left_by};
ghost use Rattle.rules.specs.Refusals.{index_of, stepped_to};

use rules::{CompactReader, Cursor, Refusal};

// One step of the lent cursor: answers as step does, and leaves the cursor where the step leaves it.
pub fn next(c: &mut Cursor, x: &CompactReader<'_>) -> Result<Option<u64>, Refusal>
    ensures answers { stepped_to c.new result ≡ step_rule (index_of x.now) c.old }
    ensures moves { c.new ≡ left_by c.old (step_rule (index_of x.now) c.old) }
{
    match compact_iterator::step(*c, x) {
        Ok(None) => Ok(None),
        Ok(Some((value, moved))) => {
            *c = moved;
            Ok(Some(value))
        }
        Err(stayed) => {
            *c = stayed.cursor;
            Err(stayed.refusal)
        }
    }
}
