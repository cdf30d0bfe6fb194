// The border to C and Rust: a walk over positions. 0 is answered, 1 to 11 are the refusals' numbers.
#![tactic(auto)]

ghost use Rattle.std.specs.Prelude.{◌≡◌};
ghost use Rattle.rules.specs.Record.{index, state_at};
ghost use Rattle.rules.specs.Reading.{cursor_at, iter_rule, step_rule};
ghost use Rattle.crossing.specs.Told.{told, telling, walked, step_telling};

use crossing::reader;
use rules::Cursor;

// Opens a walk over a..b; the cursor, next and end, goes where the pointer says.
#[unsafe(no_mangle)]
pub extern "C" fn rotlantern_iter(
    state: &[u64; 5],
    starts: &[u64],
    bases: &[u64],
    offsets: &[u64],
    widths: &[u8],
    bytes: &[u8],
    a: u64,
    b: u64,
    cursor: &mut [u64; 2],
) -> u64
    ensures { told result (cursor_at cursor.new) ≡ telling (iter_rule (index (state_at state.now) starts.now bases.now offsets.now widths.now bytes.now) a b) (cursor_at cursor.old) }
{
    let x = reader(state, starts, bases, offsets, widths, bytes);
    crossing::tell(
        compact_iterator::iter(&x, &(a..b)).map(<[u64; 2]>::from),
        cursor,
    )
}

// One step of a walk: done is set to 1 where nothing is left; otherwise to 0, and the value and the moved cursor go where the pointers say.
#[unsafe(no_mangle)]
pub extern "C" fn rotlantern_next(
    cursor: &mut [u64; 2],
    state: &[u64; 5],
    starts: &[u64],
    bases: &[u64],
    offsets: &[u64],
    widths: &[u8],
    bytes: &[u8],
    value: &mut u64,
    done: &mut u64,
) -> u64
    ensures { told result (walked (cursor_at cursor.new) value.new done.new) ≡ step_telling (step_rule (index (state_at state.now) starts.now bases.now offsets.now widths.now bytes.now) (cursor_at cursor.old)) (walked (cursor_at cursor.old) value.old done.old) }
{
    let c = Cursor::from(*cursor);
    crossing::tell_step(
        compact_iterator::step(c, &reader(state, starts, bases, offsets, widths, bytes)),
        cursor,
        value,
        done,
    )
}
