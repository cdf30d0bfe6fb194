// The border to C and Rust: target_range and bisect_range_left. 0 is answered, 1 to 11 are the refusals' numbers.
#![tactic(auto)]

ghost use Rattle.std.specs.Prelude.{◌≡◌};
ghost use Rattle.rules.specs.Record.{index, state_at};
ghost use Rattle.rules.specs.Reading.{span, target_rule, bisect_range_rule};
ghost use Rattle.crossing.specs.Told.{told, telling};

use crossing::reader;

// The range of values between position p and the next, for data of length t.
#[unsafe(no_mangle)]
pub extern "C" fn rotlantern_target_range(
    state: &[u64; 5],
    starts: &[u64],
    bases: &[u64],
    offsets: &[u64],
    widths: &[u8],
    bytes: &[u8],
    p: u64,
    t: u64,
    start: &mut u64,
    end: &mut u64,
) -> u64
    ensures { told result (span start.new end.new) ≡ telling (target_rule (index (state_at state.now) starts.now bases.now offsets.now widths.now bytes.now) p t) (span start.old end.old) }
{
    crossing::tell_target(
        compact_reader::target_range(&reader(state, starts, bases, offsets, widths, bytes), p, t),
        start,
        end,
    )
}

// The leftmost position within a..b where v would be ordered.
#[unsafe(no_mangle)]
pub extern "C" fn rotlantern_bisect_range_left(
    state: &[u64; 5],
    starts: &[u64],
    bases: &[u64],
    offsets: &[u64],
    widths: &[u8],
    bytes: &[u8],
    a: u64,
    b: u64,
    v: u64,
    position: &mut u64,
) -> u64
    ensures { told result position.new ≡ telling (bisect_range_rule (index (state_at state.now) starts.now bases.now offsets.now widths.now bytes.now) a b v) position.old }
{
    let x = reader(state, starts, bases, offsets, widths, bytes);
    crossing::tell(compact_bisect::bisect_range_left(&x, &(a..b), v), position)
}
