// The value at a position of a given segment, on any tables.
#![tactic(auto)]

ghost use Rattle.std.specs.Prelude.{◌≡◌};
ghost use Rattle.rules.specs.Reading.{delta_read, read_in};
ghost use Rattle.rules.specs.Refusals.{index_of, answer_of};

use rules::{Refusal, Width};
use tables::{Counted, Segment};

// The value at position p, read in segment g.
#[tactic(auto, unfolding(rules::specs::Reading::read_in, rules::specs::Refusals::width_at))]
pub fn read_in(g: Segment<'_>, p: u64) -> Result<u64, Refusal>
    ensures { answer_of result ≡ read_in (index_of g.entry.counted.index.now) g.entry.k p }
{
    let start = g.start();
    let base = g.base();
    let offset = g.offset();
    if p < start {
        return Err(Refusal::Damaged);
    }
    if p == start {
        return Ok(base);
    }
    let Width::Of(w) = g.width() else {
        return Err(Refusal::Damaged);
    };
    delta_read(g.counted, base, offset, p - start - 1, w)
}

// Delta number i of a segment with this base, offset and width, added to the base.
#[tactic(auto, unfolding(rules::specs::Reading::delta_read, rules::specs::Words::when_all))]
fn delta_read(x: Counted<'_>, base: u64, offset: u64, i: u64, w: u8) -> Result<u64, Refusal>
    ensures { let index = x.entry.index.now in
        answer_of result ≡ delta_read index.state.minimum index.state.used index.bytes.now base offset i w }
{
    let index = x.index;
    let used = index.state.used;
    let width = w as u64;
    if width < index.state.minimum {
        return Err(Refusal::Damaged);
    }
    if 8 < width {
        return Err(Refusal::Damaged);
    }
    if used < offset {
        return Err(Refusal::Damaged);
    }
    if (used - offset) / width <= i {
        return Err(Refusal::Damaged);
    }
    let delta = delta::delta_at(index.bytes, offset + i * width, width);
    base.checked_add(delta).ok_or(Refusal::Damaged)
}
