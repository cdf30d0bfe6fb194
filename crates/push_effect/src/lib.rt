// The effect of a push that is planned: what it stores in the lent tables, and the next state.
#![tactic(auto)]

ghost use Rattle.std.specs.Prelude.{◌≡◌, ◌≤◌, ◌<◌, ◌+◌, ◌^◌, length};
ghost use Rattle.rules.specs.Push.{with_segment, with_more};
ghost use Rattle.rules.specs.Refusals.{index_in, SameTables};

use rules::CompactWriter;

// Starts a segment with the base `v`: one entry more in starts, bases and offsets.
pub fn start_segment(x: &mut CompactWriter<'_>, v: u64) -> u64
    requires { (x.old.state.length + 1 < 2 ^ 64) × (x.old.state.segments < length x.old.starts.now)
        × (x.old.state.segments < length x.old.bases.now) × (x.old.state.segments < length x.old.offsets.now) }
    ensures position { result ≡ x.old.state.length }
    ensures left { index_in x.new ≡ with_segment (index_in x.old) v }
    ensures lent { SameTables x.new x.old }
{
    let segment = x.state.segments as usize;
    x.starts[segment] = x.state.length;
    x.bases[segment] = v;
    x.offsets[segment] = x.state.used;
    x.state.segments += 1;
    count_value(x)
}

// Stores a delta in `width` bytes from the first unused data byte on.
pub fn push_delta(x: &mut CompactWriter<'_>, delta: u64, width: u64) -> u64
    requires { (x.old.state.length + 1 < 2 ^ 64) × (x.old.state.used + width ≤ length x.old.bytes.now) }
    ensures position { result ≡ x.old.state.length }
    ensures left { index_in x.new ≡ with_more (index_in x.old) delta width }
    ensures lent { SameTables x.new x.old }
{
    let from = x.state.used as usize;
    delta::store_delta(&mut x.bytes[from..], delta, width);
    x.state.used += width;
    count_value(x)
}

// Counts one value more and answers its position: the one place that raises the length.
fn count_value(x: &mut CompactWriter<'_>) -> u64
    requires { x.old.state.length + 1 < 2 ^ 64 }
    ensures position { result ≡ x.old.state.length }
    ensures left { x.new ≡ record x.old { state = record x.old.state { length = x.old.state.length + 1 } } }
{
    let position = x.state.length;
    x.state.length = position + 1;
    position
}
