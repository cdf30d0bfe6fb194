// get_range over starts that are not sorted, 0 2 1 1: main's proof shows that it gives 100 and 400 and leaves the rest of the output.
#![tactic(auto)]

use rules::{CompactReader, State};
use std::io;

fn main(rt: HostRuntime) -> io::Result<()> {
    let x = CompactReader {
        state: State {
            minimum: 1,
            length: 4,
            segments: 4,
            widths: 4,
            used: 0,
        },
        starts: &[0, 2, 1, 1],
        bases: &[100, 200, 300, 400],
        offsets: &[0, 0, 0, 0],
        widths: &[1, 1, 1, 1],
        bytes: &[0],
    };
    let mut out = [7u64, 7, 7];
    let _ = compact_range::get_range(&x, &(0..2), &mut out);
    check::expect(out[0] == 100);
    check::expect(out[1] == 400);
    check::expect(out[2] == 7);
    let [first, second, _] = out;
    println!(rt; "{first} {second}")
}
