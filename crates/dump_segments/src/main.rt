// The dump program on the segment after the 1,024th.
#![tactic(auto)]

use std::io;

fn main(rt: HostRuntime) -> io::Result<()> {
    let mut piece = [0u8; 4096];
    dump_io::run(&rt, &mut piece)
}
