// Replays the original's answers: its stored input is what `oracle/run --record` writes.
#![tactic(auto)]

use std::io;

fn main(rt: HostRuntime) -> io::Result<()> {
    replay_io::run(&rt)
}
