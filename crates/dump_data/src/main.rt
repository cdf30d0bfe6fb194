// The dump program on a delta of 8 bytes more than the 16,384 data bytes hold.
#![tactic(auto)]

use std::io;

fn main(rt: HostRuntime) -> io::Result<()> {
    let mut piece = [0u8; 4096];
    dump_io::run(&rt, &mut piece)
}
