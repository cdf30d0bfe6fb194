// The border to C and Rust: get_range, the delta run and the audit. 0 is answered, 1 to 11 are the refusals' numbers.
#![tactic(auto)]

ghost use Rattle.std.specs.Prelude.{◌≡◌};
ghost use Rattle.rules.specs.Record.{index, state_at};
ghost use Rattle.rules.specs.Reading.{range_rule, run_count_rule, run_value_rule};
ghost use Rattle.rules.specs.Audit.{audit_rule};
ghost use Rattle.crossing.specs.Told.{told, telling, found, verdict_telling};

use crossing::reader;

// The values at a..b, into the output from its first entry; how many goes where the pointer says.
#[unsafe(no_mangle)]
pub extern "C" fn rotlantern_get_range(
    state: &[u64; 5],
    starts: &[u64],
    bases: &[u64],
    offsets: &[u64],
    widths: &[u8],
    bytes: &[u8],
    a: u64,
    b: u64,
    out: &mut [u64],
    count: &mut u64,
) -> u64
    ensures answers { told result count.new ≡ telling (range_rule (index (state_at state.now) starts.now bases.now offsets.now widths.now bytes.now) a b out.old).answer count.old }
    ensures writes { out.new ≡ (range_rule (index (state_at state.now) starts.now bases.now offsets.now widths.now bytes.now) a b out.old).left }
{
    let x = reader(state, starts, bases, offsets, widths, bytes);
    crossing::tell(compact_range::get_range(&x, &(a..b), out), count)
}

// How many deltas of this width a run of bytes holds.
#[unsafe(no_mangle)]
pub extern "C" fn rotlantern_run_count(bytes: &[u8], width: u64, count: &mut u64) -> u64
    ensures { told result count.new ≡ telling (run_count_rule bytes.now width) count.old }
{
    crossing::tell(delta_run::count_of(bytes, width), count)
}

// The i-th value of a run of deltas of this width over this base.
#[unsafe(no_mangle)]
pub extern "C" fn rotlantern_run_value(
    bytes: &[u8],
    base: u64,
    width: u64,
    i: u64,
    value: &mut u64,
) -> u64
    ensures { told result value.new ≡ telling (run_value_rule bytes.now base width i) value.old }
{
    crossing::tell(delta_run::value_of(bytes, base, width, i), value)
}

// Audits the index: the first rule that fails, 1 for A to 6 for F, and its segment; 0 and 0 where all is well formed. Never refused.
#[unsafe(no_mangle)]
pub extern "C" fn rotlantern_audit(
    state: &[u64; 5],
    starts: &[u64],
    bases: &[u64],
    offsets: &[u64],
    widths: &[u8],
    bytes: &[u8],
    letter: &mut u64,
    segment: &mut u64,
) -> u64
    ensures { told result (found letter.new segment.new) ≡ told 0 (verdict_telling (audit_rule (index (state_at state.now) starts.now bases.now offsets.now widths.now bytes.now))) }
{
    crossing::tell_verdict(
        audit::audit(&reader(state, starts, bases, offsets, widths, bytes)),
        letter,
        segment,
    );
    0
}
