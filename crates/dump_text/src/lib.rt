// The lines of the dump's report.
#![tactic(auto)]

ghost use Rattle.std.specs.Prelude.{◌≡◌};
ghost use Rattle.dump.specs.Feeding.{fed_of};
ghost use Rattle.dump_put.specs.Report.{report_line};

use dump::Feed;
use dump_put::Line;

// Line number i of the report; an empty one where there is no such line.
#[tactic(auto, using(laws::proofs::Counts::facts_counts), unfolding(rules::specs::Push::length_rule, rules::specs::Push::size_rule, dump_put::specs::Report::report_line))]
pub fn line(fed: &Feed<'_>, i: u64) -> Line
    ensures { result.items ≡ report_line (fed_of fed.now) i }
{
    let index = fed.index.reader();
    let s = index.state;
    let Ok(counted) = tables::check_counts(&index) else {
        return Line::new();
    };
    match i {
        0 => dump_lines::end_line(fed),
        1 => dump_put::number_line(b"length ", s.length),
        2 => dump_put::number_line(b"segments ", s.segments),
        3 => dump_put::number_line(b"bytes ", 24 * s.segments + s.widths + s.used),
        _ if i - 4 < s.segments => dump_lines::segment_line(counted.segment(i - 4)),
        _ => Line::new(),
    }
}
