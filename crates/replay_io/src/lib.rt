// The replay program: reads records from standard input, replays them, and writes what it counted.
#![tactic(auto)]

ghost use Rattle.std.specs.Prelude.{◌≤◌, length};

use replay::Player;
use replay_tally::Tally;
use std::io;
use std::io::Read;

// Replays standard input to its end, then writes the result. No recorded list has more than 24 values.
// A write that fails ends it with that error.
pub fn run(rt: &(impl Input + Print)) -> io::Result<()> {
    let mut starts = [0u64; 24];
    let mut bases = [0u64; 24];
    let mut offsets = [0u64; 24];
    let mut widths = [0u8; 24];
    let mut bytes = [0u8; 192];
    let mut out = [0u64; 24];
    let mut player = Player::start(
        &mut starts,
        &mut bases,
        &mut offsets,
        &mut widths,
        &mut bytes,
        &mut out,
    );
    let tally = replay_all(rt, &mut player);
    write_tally(rt, tally)
}

// Replays each record of standard input. A read that fails counts as the end of the input.
// The loop has to end and nothing says that the input does: it has more turns than any run takes.
fn replay_all(rt: &impl Input, player: &mut Player<'_>) -> Tally {
    let mut input = rt.reader();
    let mut tally = replay_tally::start();
    let mut recorded = [0u8; 64];
    for _ in 0..u64::MAX {
        let n = read_full(&mut input, &mut recorded);
        tally = replay_tally::take(player, tally, &recorded[..n]);
        if n < 64 {
            break;
        }
    }
    tally
}

// Reads until `recorded` is full, the input ends or a read fails, and answers how many bytes it put at the start.
fn read_full(input: &mut impl Read, recorded: &mut [u8]) -> usize
    ensures { result ≤ length recorded.new }
{
    let mut done = 0;
    while done < recorded.len() {
        let n = input.read(&mut recorded[done..]).unwrap_or(0);
        if n == 0 {
            return done;
        }
        done += n;
    }
    done
}

// Writes how many records there were and how many differ; then what else there is to say of them.
fn write_tally(rt: &impl Print, t: Tally) -> io::Result<()> {
    println!(rt; "replayed {} differ {}", t.records, t.differ)?;
    if t.unknown != 0 {
        println!(rt; "unknown {}", t.unknown)?;
    }
    if t.tail != 0 {
        println!(rt; "tail {}", t.tail)?;
    }
    if let Some(d) = t.first {
        println!(rt;
            "record {} kind {} due {} found {}",
            d.number, d.kind, d.due, d.found
        )?;
    }
    Ok(())
}
