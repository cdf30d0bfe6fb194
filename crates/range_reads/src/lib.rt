// Whether each position of a range gives a value.
#![tactic(auto)]

ghost use Rattle.std.specs.Prelude.{◌≡◌, true, ◌-◌, ◌≤◌, ◌<◌, take};
ghost use Rattle.rules.specs.Record.{start};
ghost use Rattle.rules.specs.Reading.{reads};
ghost use Rattle.rules.specs.Refusals.{index_of};
ghost use Rattle.range_reads.specs.Values.{is_value, Sure, Run};

use range_find::Finder;
use rules::Width;
use tables::{Counted, Segment};

// Whether each position from a up to the finder's limit gives a value.
pub fn range_reads(x: Counted<'_>, finder: &Finder<'_>, a: u64) -> bool
    requires in_use { finder.now.starts.now ≡ take x.index.now.state.segments x.index.now.starts.now }
    requires ordered { a ≤ finder.now.limit }
    requires within { finder.now.limit ≤ x.index.now.state.length }
    ensures { result ≡ is_value (reads (index_of x.entry.index.now) a (finder.now.limit - a)) }
{
    let mut p = a;
    let mut number: u64 = 0;
    'segments: loop {
        if finder.limit <= p {
            break 'segments true;
        }
        let found = finder.find(number, p);
        number = found.number;
        let until = found.until;
        if number == 0 {
            break 'segments false;
        }
        let g = x.segment(number - 1);
        p = sure_until(g, p, until);
        'deltas: loop {
            if until <= p {
                break 'deltas;
            }
            let Ok(_) = segment_reader::read_in(g, p) else {
                break 'segments false;
            };
            p += 1;
        }
    }
}

// How far from p on every read in segment g is sure to give a value, whatever its deltas are: to p itself, or to `until`.
fn sure_until(g: Segment<'_>, p: u64, until: u64) -> u64
    requires after { start (index_of g.counted.index.now) g.k ≤ p }
    requires some { p < until }
    ensures { Sure (index_of g.entry.counted.index.now) g.entry.k p until result }
{
    let index = g.counted.index;
    let used = index.state.used;
    let offset = g.offset();
    let Width::Of(w) = g.width() else {
        return p;
    };
    let width = w as u64;
    if index.state.minimum <= width && width <= 8 && offset <= used {
        let bytes = &index.bytes[offset as usize..used as usize];
        if run_sure(bytes, g.base(), width, until - g.start() - 1) {
            return until;
        }
    }
    p
}

// Whether the bytes have n deltas of this width, and each makes a sum with the base that fits, whatever it is.
fn run_sure(bytes: &[u8], base: u64, width: u64, n: u64) -> bool
    requires some { 1 ≤ width }
    requires most { width ≤ 8 }
    ensures { result ≡ true → Run bytes.now base width n }
{
    n <= bytes.len() as u64 / width && delta::all_fit(base, width)
}
