// The plan of a push: what it is to do, before anything is written.
#![tactic(auto)]

ghost use Rattle.std.specs.Prelude.{◌≡◌, true, false, ◌≤◌};
ghost use Rattle.rules.specs.Words.{when_all};
ghost use Rattle.rules.specs.Record.{room_of};
ghost use Rattle.rules.specs.Push.{data_room, segment_plan, first_plan, next_plan, plan_of};
ghost use Rattle.rules.specs.Refusals.{index_of};
ghost use Rattle.push_plan.specs.Plans.{planned};

use rules::{CompactReader, Refusal, Width};
use tables::Counted;

// What a push is to do.
#[derive(Clone, Copy)]
pub enum Plan {
    // Start a segment with the value as its base.
    Segment,
    // Store the segment's first delta, and the width that it needs.
    First(u64, u64),
    // Store one delta more, in the segment's width.
    More(u64, u64),
}

// What a push of `v` is to do.
#[tactic(auto, using(laws::proofs::Answers::width_there, laws::proofs::Answers::width_absent), unfolding(rules::specs::Push::plan_of))]
pub fn plan_push(x: &CompactReader<'_>, v: u64) -> Result<Plan, Refusal>
    ensures { planned result ≡ plan_of (index_of x.now) v }
{
    let c = tables::check_counts(x)?;
    if x.state.segments == 0 {
        return plan_segment(c);
    }
    let last = c.segment(x.state.segments - 1);
    let base = last.base();
    let Width::Of(width) = last.width() else {
        return plan_first(c, base, v);
    };
    plan_next(c, base, width as u64, v)
}

// The plan where a new segment is due: start it if it has room.
#[tactic(auto, unfolding(rules::specs::Words::when_all, rules::specs::Push::segment_plan))]
fn plan_segment(x: Counted<'_>) -> Result<Plan, Refusal>
    ensures { let i = index_of x.entry.index.now in planned result ≡ segment_plan i.state (room_of i) }
{
    let x = x.index;
    let segments = x.state.segments;
    if rules::SEGMENT_LIMIT <= segments
        || x.starts.len() as u64 <= segments
        || x.bases.len() as u64 <= segments
        || x.offsets.len() as u64 <= segments
    {
        return Err(Refusal::SegmentRoom);
    }
    Ok(Plan::Segment)
}

// The plan where the last segment has this base and no width.
#[tactic(auto, unfolding(rules::specs::Words::when_all, rules::specs::Push::first_plan))]
fn plan_first(x: Counted<'_>, base: u64, v: u64) -> Result<Plan, Refusal>
    ensures { let i = index_of x.entry.index.now in planned result ≡ first_plan i.state (room_of i) base v }
{
    if v < base {
        return Err(Refusal::Below);
    }
    if x.index.widths.len() as u64 <= x.index.state.widths {
        return Err(Refusal::WidthRoom);
    }
    let delta = v - base;
    let need = delta::need_of(delta, x.index.state.minimum);
    if data_room(x, need) {
        return Ok(Plan::First(delta, need));
    }
    Err(Refusal::DataRoom)
}

// The plan where the last segment has this base and this width.
#[tactic(auto, unfolding(rules::specs::Words::when_all, rules::specs::Push::next_plan))]
fn plan_next(x: Counted<'_>, base: u64, width: u64, v: u64) -> Result<Plan, Refusal>
    ensures { let i = index_of x.entry.index.now in planned result ≡ next_plan i.state (room_of i) base width v }
{
    let minimum = x.index.state.minimum;
    if width < minimum || 8 < width {
        return Err(Refusal::Damaged);
    }
    if v < base {
        return Err(Refusal::Below);
    }
    let delta = v - base;
    let need = delta::need_of(delta, minimum);
    if width < need {
        return plan_segment(x);
    }
    if data_room(x, width) {
        return Ok(Plan::More(delta, width));
    }
    Err(Refusal::DataRoom)
}

// Whether `due` data bytes more have room.
#[tactic(auto, unfolding(rules::specs::Words::when_all))]
fn data_room(x: Counted<'_>, due: u64) -> bool
    requires { due ≤ 8 }
    ensures { let i = index_of x.entry.index.now in result ≡ when_all (data_room i.state (room_of i) due) true false }
{
    let end = x.index.state.used + due;
    end <= x.index.bytes.len() as u64 && end <= rules::DATA_LIMIT
}
