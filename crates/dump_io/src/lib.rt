// The dump program: reads values from standard input into an index, and writes what the index holds.
#![tactic(auto)]

use dump::Feed;
use std::io;
use std::io::Read;

// Reads standard input through `piece` to its end or to the first refusal, then writes the report.
// A write that fails ends it with that error.
pub fn run(rt: &(impl Input + Print), piece: &mut [u8]) -> io::Result<()> {
    let mut starts = [0u64; 1024];
    let mut bases = [0u64; 1024];
    let mut offsets = [0u64; 1024];
    let mut widths = [0u8; 1024];
    let mut bytes = [0u8; 16384];
    let mut fed = Feed::start(
        &mut starts,
        &mut bases,
        &mut offsets,
        &mut widths,
        &mut bytes,
    );
    read_values(rt, piece, &mut fed);
    write_report(rt, &fed)
}

// Feeds the index with what each read gives. A read that fails counts as the end of the input.
// The loop has to end and nothing says that the input does: it has more turns than any run takes.
fn read_values(rt: &impl Input, piece: &mut [u8], fed: &mut Feed<'_>) {
    let mut input = rt.reader();
    for _ in 0..u64::MAX {
        let n = input.read(piece).unwrap_or(0);
        fed.feed(&piece[..n]);
        if n == 0 || fed.refusal.is_some() {
            break;
        }
    }
}

// Writes the report's lines: four, and one for each of at most 1,024 segments.
fn write_report(rt: &impl Print, fed: &Feed<'_>) -> io::Result<()> {
    for i in 0..1028 {
        rt.write_all(&dump_text::line(fed, i))?;
    }
    Ok(())
}
