// The lines that say how the input ended and what a segment is.
#![tactic(auto)]

ghost use Rattle.std.specs.Prelude.{◌≡◌};
ghost use Rattle.rules.specs.Refusals.{index_of};
ghost use Rattle.dump.specs.Feeding.{number_in};
ghost use Rattle.dump_put.specs.Report.{end_line, segment_line};

use dump::Feed;
use dump_put::Line;
use tables::Segment;

// The line that says how the input ended: a refusal, or a tail of bytes that make no value; otherwise none.
#[tactic(auto, unfolding(dump_put::specs::Report::end_line))]
pub fn end_line(fed: &Feed<'_>) -> Line
    ensures { result.items ≡ end_line fed.now.index.state.length fed.now.count (number_in fed.now.refusal) }
{
    if let Some(number) = fed.refusal {
        let mut line = Line::new();
        dump_put::put_field(&mut line, b"refused ", fed.index.state.length);
        dump_put::put_field(&mut line, b" number ", number.get());
        dump_put::put(&mut line, b"\n");
        return line;
    }
    if fed.count != 0 {
        return dump_put::number_line(b"tail ", fed.count);
    }
    Line::new()
}

// The line of segment g.
#[tactic(auto, unfolding(dump_put::specs::Report::segment_line))]
pub fn segment_line(g: Segment<'_>) -> Line
    ensures { result.items ≡ segment_line (index_of g.entry.counted.index.now) g.entry.k }
{
    let mut line = Line::new();
    dump_put::put_field(&mut line, b"segment ", g.k);
    dump_put::put_field(&mut line, b" start ", g.start());
    dump_put::put_field(&mut line, b" base ", g.base());
    dump_put::put_field(&mut line, b" offset ", g.offset());
    dump_put::put_width(&mut line, g.width());
    dump_put::put(&mut line, b"\n");
    line
}
