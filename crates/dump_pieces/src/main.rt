// The dump program on the input of dump_long, read 13 bytes at a time: values straddle the reads.
#![tactic(auto)]

use std::io;

fn main(rt: HostRuntime) -> io::Result<()> {
    let mut piece = [0u8; 13];
    dump_io::run(&rt, &mut piece)
}
