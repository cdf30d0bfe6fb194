// What every entry point asks first: the counts rule, a range's bounds, a segment's width, where a segment begins.
#![tactic(auto)]

ghost use Rattle.std.specs.Prelude.{◌≡◌, true, false, ◌≤◌, length, get_or};
ghost use Rattle.rules.specs.Words.{value, refused, unless, when_all};
ghost use Rattle.rules.specs.Record.{room_of, state_tests, room_tests, counts_hold, edge, mark};
ghost use Rattle.rules.specs.Reading.{in_range};
ghost use Rattle.rules.specs.Refusals.{index_of, width_at};
ghost use Rattle.tables.specs.Counting.{counted_of};

mod counts;
mod segments;

pub use counts::Counted;
use rules::{CompactReader, Refusal, State, Width};
pub use segments::Segment;
use std::ops::Range;

// The index, if it keeps the counts rule.
pub fn check_counts<'a>(x: &'a CompactReader<'a>) -> Result<Counted<'a>, Refusal>
    ensures { counted_of result ≡ unless (counts_hold (index_of x.now)) (refused 9) (value x.now) }
{
    if !counts_hold(x) {
        return Err(Refusal::Counts);
    }
    Ok(Counted { index: x })
}

// The index, if it keeps the counts rule and the range lies within it.
pub fn check_range<'a>(x: &'a CompactReader<'a>, range: &Range<u64>) -> Result<Counted<'a>, Refusal>
    ensures { counted_of result ≡ in_range (index_of x.now) range.now.start range.now.end (value x.now) }
{
    let c = check_counts(x)?;
    if x.state.length < range.end {
        return Err(Refusal::RangeEnd);
    }
    if range.end < range.start {
        return Err(Refusal::Reversed);
    }
    Ok(c)
}

// Whether the state and the five tables keep the counts rule.
pub fn counts_hold(x: &CompactReader<'_>) -> bool
    ensures { result ≡ counts_hold (index_of x.now) }
{
    state_holds(x.state) && room_holds(x)
}

// Whether the five numbers keep the counts rule by themselves.
#[tactic(auto, using(laws::proofs::Tests::left))]
pub fn state_holds(s: State) -> bool
    ensures { result ≡ when_all (state_tests s) true false }
{
    let minimum = s.minimum;
    let length = s.length;
    let segments = s.segments;
    let widths = s.widths;
    let used = s.used;
    if minimum < 1 {
        return false;
    }
    if 8 < minimum {
        return false;
    }
    if rules::SEGMENT_LIMIT < segments {
        return false;
    }
    if rules::DATA_LIMIT < used {
        return false;
    }
    if segments == 0 {
        return (length == 0) & (widths == 0) & (used == 0);
    }
    (segments - 1 <= widths)
        & (widths <= segments)
        & (segments <= length)
        & (length <= segments + used)
}

// Whether the five tables have the entries that the state counts.
#[tactic(auto, using(laws::proofs::Tests::left))]
fn room_holds(x: &CompactReader<'_>) -> bool
    ensures { result ≡ when_all (room_tests x.now.state (room_of (index_of x.now))) true false }
{
    let s = x.state;
    if (x.starts.len() as u64) < s.segments {
        return false;
    }
    if (x.bases.len() as u64) < s.segments {
        return false;
    }
    if (x.offsets.len() as u64) < s.segments {
        return false;
    }
    if (x.widths.len() as u64) < s.widths {
        return false;
    }
    s.used <= (x.bytes.len() as u64)
}

// The width of segment k, or that it has none: the state counts the widths.
pub fn width_of(x: &CompactReader<'_>, k: u64) -> Width
    requires { x.now.state.widths ≤ length x.now.widths.now }
    ensures { result ≡ width_at x.now.state x.now.widths.now k }
{
    if k < x.state.widths {
        return Width::Of(x.widths[k as usize]);
    }
    Width::Absent
}

// Entry k of a table, or `end` past them: where a segment begins and the one before it ends.
pub fn entry_or(table: &[u64], k: u64, end: u64) -> u64
    ensures { result ≡ get_or table.now k end }
{
    table.get(k as usize).copied().unwrap_or(end)
}

// The position at which segment k begins: its start, or length for the number after the last.
pub fn edge(x: &CompactReader<'_>, k: u64) -> u64
    requires { x.now.state.segments ≤ length x.now.starts.now }
    ensures { result ≡ edge (index_of x.now) k }
{
    let segments = x.state.segments as usize;
    entry_or(&x.starts[..segments], k, x.state.length)
}

// The data byte at which segment k begins: its offset, or used for the number after the last.
pub fn mark(x: &CompactReader<'_>, k: u64) -> u64
    requires { x.now.state.segments ≤ length x.now.offsets.now }
    ensures { result ≡ mark (index_of x.now) k }
{
    let segments = x.state.segments as usize;
    entry_or(&x.offsets[..segments], k, x.state.used)
}
