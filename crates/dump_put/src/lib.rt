// Labels, numbers and widths as text, put at the end of a line.
#![tactic(auto)]

ghost use Rattle.std.specs.Prelude.{◌≡◌, ◌++◌, ◌+◌, ◌≤◌, length};
ghost use Rattle.arrayvec.specs.ArrayVec.{array_vec_len, Extends};
ghost use Rattle.dump_put.specs.Report.{decimal, newline, width_text};

use arrayvec::ArrayVec;
use rules::Width;

// A line of the report: at most 160 bytes.
pub type Line = ArrayVec<u8, 160>;

// The line of a label and a number.
pub fn number_line<const N: usize>(label: &[u8], n: u64) -> ArrayVec<u8, N>
    requires { length label.now + 21 ≤ N }
    ensures { result.items ≡ label.now ++ decimal n ++ newline }
{
    let mut line = ArrayVec::new();
    put_field(&mut line, label, n);
    put(&mut line, b"\n");
    line
}

// Puts a segment's width at the end, or that it has none.
pub fn put_width<const N: usize>(line: &mut ArrayVec<u8, N>, width: Width)
    requires { array_vec_len line.old + 27 ≤ N }
    ensures put { Extends line.old (width_text width) line.new }
    ensures short { array_vec_len line.new ≤ array_vec_len line.old + 27 }
{
    let Width::Of(w) = width else {
        return put(line, b" width none");
    };
    put_field(line, b" width ", w as u64)
}

// Puts a label and a number at the end.
pub fn put_field<const N: usize>(line: &mut ArrayVec<u8, N>, label: &[u8], n: u64)
    requires { array_vec_len line.old + length label.now + 20 ≤ N }
    ensures put { Extends line.old (label.now ++ decimal n) line.new }
    ensures short { array_vec_len line.new ≤ array_vec_len line.old + length label.now + 20 }
{
    put(line, label);
    put(line, itoa::Buffer::new().format(n).as_bytes())
}

// Puts some bytes at the end. There is room.
pub fn put<const N: usize>(line: &mut ArrayVec<u8, N>, part: &[u8])
    requires { array_vec_len line.old + length part.now ≤ N }
    ensures put { Extends line.old part.now line.new }
    ensures long { array_vec_len line.new ≡ array_vec_len line.old + length part.now }
{
    let _fits = line.try_extend_from_slice(part);
}
