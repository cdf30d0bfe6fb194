// The dump program on 700 values and three bytes, more than one piece holds.
#![tactic(auto)]

use std::io;

fn main(rt: HostRuntime) -> io::Result<()> {
    let mut piece = [0u8; 4096];
    dump_io::run(&rt, &mut piece)
}
