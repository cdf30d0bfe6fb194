// The dump program on three values and five bytes.
#![tactic(auto)]

use std::io;

fn main(rt: HostRuntime) -> io::Result<()> {
    let mut piece = [0u8; 4096];
    dump_io::run(&rt, &mut piece)
}
