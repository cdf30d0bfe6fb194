// Replays a few of the original's answers with one byte of one answer changed: the program must say so.
#![tactic(auto)]

use std::io;

fn main(rt: HostRuntime) -> io::Result<()> {
    replay_io::run(&rt)
}
