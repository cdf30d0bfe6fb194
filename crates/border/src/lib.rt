// The border to C and Rust: opening, push, length, size, get, bisect_left. 0 is answered, 1 to 11 are the refusals' numbers.
#![tactic(auto)]

ghost use Rattle.std.specs.Prelude.{◌≡◌};
ghost use Rattle.rules.specs.Record.{index, state_at, fresh_state, default_minimum, open_rule};
ghost use Rattle.rules.specs.Push.{push_rule, length_rule, size_rule};
ghost use Rattle.rules.specs.Reading.{get_rule, bisect_rule};
ghost use Rattle.crossing.specs.Told.{told, telling};

use crossing::reader;
use rules::{CompactWriter, State};

// Opens an index with this minimum width: its fresh state goes where the pointer says.
#[unsafe(no_mangle)]
pub extern "C" fn rotlantern_open(minimum: u64, state: &mut [u64; 5]) -> u64
    ensures { told result (state_at state.new) ≡ telling (open_rule minimum) (state_at state.old) }
{
    crossing::tell(
        compact_index::compact_index(minimum).map(<[u64; 5]>::from),
        state,
    )
}

// Opens an index with the default minimum width; this is never refused.
#[unsafe(no_mangle)]
pub extern "C" fn rotlantern_open_default(state: &mut [u64; 5]) -> u64
    ensures { told result (state_at state.new) ≡ told 0 (fresh_state default_minimum) }
{
    *state = compact_index::default_index().into();
    0
}

// Adds a value to the end of the index; its position goes where the pointer says.
#[unsafe(no_mangle)]
pub extern "C" fn rotlantern_push(
    state: &mut [u64; 5],
    starts: &mut [u64],
    bases: &mut [u64],
    offsets: &mut [u64],
    widths: &mut [u8],
    bytes: &mut [u8],
    v: u64,
    position: &mut u64,
) -> u64
    ensures answers { told result position.new ≡ telling (push_rule (index (state_at state.old) starts.old bases.old offsets.old widths.old bytes.old) v).answer position.old }
    ensures leaves { index (state_at state.new) starts.new bases.new offsets.new widths.new bytes.new ≡ (push_rule (index (state_at state.old) starts.old bases.old offsets.old widths.old bytes.old) v).left }
{
    let mut x = CompactWriter {
        state: State::from(*state),
        starts,
        bases,
        offsets,
        widths,
        bytes,
    };
    let pushed = compact_writer::push(&mut x, v);
    *state = x.state.into();
    crossing::tell(pushed, position)
}

// How many values the index holds.
#[unsafe(no_mangle)]
pub extern "C" fn rotlantern_length(
    state: &[u64; 5],
    starts: &[u64],
    bases: &[u64],
    offsets: &[u64],
    widths: &[u8],
    bytes: &[u8],
    value: &mut u64,
) -> u64
    ensures { told result value.new ≡ telling (length_rule (index (state_at state.now) starts.now bases.now offsets.now widths.now bytes.now)) value.old }
{
    crossing::tell(
        compact_reader::length(&reader(state, starts, bases, offsets, widths, bytes)),
        value,
    )
}

// How many bytes the index takes.
#[unsafe(no_mangle)]
pub extern "C" fn rotlantern_size(
    state: &[u64; 5],
    starts: &[u64],
    bases: &[u64],
    offsets: &[u64],
    widths: &[u8],
    bytes: &[u8],
    value: &mut u64,
) -> u64
    ensures { told result value.new ≡ telling (size_rule (index (state_at state.now) starts.now bases.now offsets.now widths.now bytes.now)) value.old }
{
    crossing::tell(
        compact_reader::size(&reader(state, starts, bases, offsets, widths, bytes)),
        value,
    )
}

// The value at position p.
#[unsafe(no_mangle)]
pub extern "C" fn rotlantern_get(
    state: &[u64; 5],
    starts: &[u64],
    bases: &[u64],
    offsets: &[u64],
    widths: &[u8],
    bytes: &[u8],
    p: u64,
    value: &mut u64,
) -> u64
    ensures { told result value.new ≡ telling (get_rule (index (state_at state.now) starts.now bases.now offsets.now widths.now bytes.now) p) value.old }
{
    crossing::tell(
        compact_reader::get(&reader(state, starts, bases, offsets, widths, bytes), p),
        value,
    )
}

// The leftmost position where v would be ordered.
#[unsafe(no_mangle)]
pub extern "C" fn rotlantern_bisect_left(
    state: &[u64; 5],
    starts: &[u64],
    bases: &[u64],
    offsets: &[u64],
    widths: &[u8],
    bytes: &[u8],
    v: u64,
    position: &mut u64,
) -> u64
    ensures { told result position.new ≡ telling (bisect_rule (index (state_at state.now) starts.now bases.now offsets.now widths.now bytes.now) v) position.old }
{
    crossing::tell(
        compact_bisect::bisect_left(&reader(state, starts, bases, offsets, widths, bytes), v),
        position,
    )
}
