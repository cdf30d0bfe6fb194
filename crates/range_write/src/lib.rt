// Puts the values of a range, each of which the tables give, into the output.
#![tactic(auto)]

ghost use Rattle.std.specs.Prelude.{◌≡◌, true, ◌+◌, ◌-◌, ◌≤◌, ◌<◌, ◌^◌, length, take};
ghost use Rattle.rules.specs.Record.{start, base};
ghost use Rattle.rules.specs.Reading.{reads};
ghost use Rattle.rules.specs.Refusals.{index_of};
ghost use Rattle.range_reads.specs.Values.{is_value, ValuesIn, Run};
ghost use Rattle.range_write.specs.Puts.{sums, in_segment, gets, puts, Based};

use range_find::Finder;
use rules::Width;
use tables::{Counted, Segment};

// Puts the values from a up to the finder's limit, each of which the tables give, into the output from its first entry on.
pub fn range_write(x: Counted<'_>, finder: &Finder<'_>, a: u64, out: &mut [u64])
    requires in_use { finder.now.starts.now ≡ take x.index.now.state.segments x.index.now.starts.now }
    requires ordered { a ≤ finder.now.limit }
    requires within { finder.now.limit ≤ x.index.now.state.length }
    requires room { finder.now.limit - a ≤ length out.old }
    requires values { is_value (reads (index_of x.index.now) a (finder.now.limit - a)) ≡ true }
    ensures { out.new ≡ puts (gets (index_of x.entry.index.now) a) 0 (finder.now.limit - a) out.old }
{
    let mut p = a;
    let mut number: u64 = 0;
    'segments: loop {
        if finder.limit <= p {
            break 'segments;
        }
        let found = finder.find(number, p);
        number = found.number;
        let until = found.until;
        let g = x.segment(number - 1);
        fill_segment(g, p, &mut out[(p - a) as usize..(until - a) as usize]);
        p = until;
    }
}

// Fills the output with the values from p on, all of segment g.
fn fill_segment(g: Segment<'_>, p: u64, out: &mut [u64])
    requires after { start (index_of g.counted.index.now) g.k ≤ p }
    requires some { 0 < length out.old }
    requires fits { p + length out.old < 2 ^ 64 }
    requires values { ValuesIn (index_of g.counted.index.now) g.k p (p + length out.old) }
    ensures { out.new ≡ puts (in_segment (index_of g.entry.counted.index.now) g.entry.k p) 0 (length out.old) out.old }
{
    let index = g.counted.index;
    let start = g.start();
    let base = g.base();
    let offset = g.offset();
    let q = put_base(g, p, out);
    let filled = q - p;
    if out.len() as u64 <= filled {
        return;
    }
    let Width::Of(w) = g.width() else {
        return;
    };
    let width = w as u64;
    let at = offset + (q - start - 1) * width;
    let bytes = &index.bytes[at as usize..];
    fill_deltas(bytes, base, width, &mut out[filled as usize..]);
}

// Puts the base into the first entry where p is its position, and answers the next position to fill.
fn put_base(g: Segment<'_>, p: u64, out: &mut [u64]) -> u64
    requires some { 0 < length out.old }
    requires fits { p + 1 < 2 ^ 64 }
    ensures { let x = index_of g.entry.counted.index.now in let k = g.entry.k in Based (start x k) (base x k) p result out.old out.new }
{
    if p == g.start() {
        out[0] = g.base();
        return p + 1;
    }
    p
}

// Fills the output with the base plus each of the bytes' first deltas.
fn fill_deltas(bytes: &[u8], base: u64, width: u64, out: &mut [u64])
    requires some { 1 ≤ width }
    requires most { width ≤ 8 }
    requires run { Run bytes.now base width (length out.old) }
    ensures { out.new ≡ puts (sums bytes.now base width) 0 (length out.old) out.old }
{
    let mut i = 0;
    let mut at: u64 = 0;
    'deltas: loop {
        if out.len() <= i {
            break 'deltas;
        }
        out[i] = base + delta::delta_at(bytes, at, width);
        at += width;
        i += 1;
    }
}
