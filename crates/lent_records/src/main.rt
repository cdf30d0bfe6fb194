// The two records that 01 names, each used as a caller uses it: a cursor that is lent for each step, on an index of two values, and a delta run.
#![tactic(auto)]

use delta_run::DeltaRun;
use rules::{CompactReader, CompactWriter, Cursor, Refusal};
use std::io;

fn main(rt: HostRuntime) -> io::Result<()> {
    let mut starts = [0u64; 1];
    let mut bases = [0u64; 1];
    let mut offsets = [0u64; 1];
    let mut widths = [0u8; 1];
    let mut bytes = [0u8; 2];
    let mut writer = CompactWriter {
        state: compact_index::default_index(),
        starts: &mut starts,
        bases: &mut bases,
        offsets: &mut offsets,
        widths: &mut widths,
        bytes: &mut bytes,
    };
    let _first = compact_writer::push(&mut writer, 10);
    let _second = compact_writer::push(&mut writer, 266);
    walk(&rt, &writer.reader())?;
    show_run(&rt, 10, 2, 0)?;
    show_run(&rt, 10, 2, 1)?;
    show_run(&rt, 10, 2, 2)?;
    show_run(&rt, 10, 9, 0)?;
    show_run(&rt, u64::MAX, 2, 0)
}

// Walks over 0..2 to its end and one step on; then a step at the length.
fn walk(rt: &impl Print, x: &CompactReader<'_>) -> io::Result<()> {
    let mut cursor = Cursor { next: 0, end: 2 };
    for _ in 0..3 {
        show_step(rt, &mut cursor, x)?;
    }
    let mut past = Cursor { next: 2, end: 3 };
    show_step(rt, &mut past, x)
}

// Takes a step of the lent cursor, and writes what it answered and where the cursor is left.
fn show_step(rt: &impl Print, cursor: &mut Cursor, x: &CompactReader<'_>) -> io::Result<()> {
    match compact_cursor::next(cursor, x) {
        Ok(None) => print!(rt; "done")?,
        Ok(Some(value)) => print!(rt; "gave {value}")?,
        Err(refusal) => print!(rt; "refused {}", u64::from(refusal))?,
    }
    println!(rt; " next {} end {}", cursor.next, cursor.end)
}

// Asks a run of two deltas, 1 and 258, and a byte that is no whole delta, for its count and for value number i; writes what it answers.
fn show_run(rt: &impl Print, base: u64, width: u64, i: u64) -> io::Result<()> {
    let bytes = [1u8, 0, 2, 1, 7];
    let run = DeltaRun {
        bytes: &bytes,
        base,
        width,
    };
    print!(rt; "count ")?;
    show(rt, run.count())?;
    print!(rt; " value ")?;
    show(rt, run.value(i))?;
    println!(rt; "")
}

// Writes an answer of one number, or its refusal.
fn show(rt: &impl Print, answer: Result<u64, Refusal>) -> io::Result<()> {
    match answer {
        Ok(value) => print!(rt; "{value}"),
        Err(refusal) => print!(rt; "refused {}", u64::from(refusal)),
    }
}
