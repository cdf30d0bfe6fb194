// The dump program on a value below the base: refused in the middle, with more values and a tail after it.
#![tactic(auto)]

use std::io;

fn main(rt: HostRuntime) -> io::Result<()> {
    let mut piece = [0u8; 4096];
    dump_io::run(&rt, &mut piece)
}
