// What crosses the border to C and Rust: an index in its parts, and an answer as a number and what its pointers say.
#![tactic(auto)]

ghost use Rattle.std.specs.Prelude.{◌≡◌};
ghost use Rattle.rules.specs.Audit.{verdict_of};
ghost use Rattle.rules.specs.Reading.{cursor_at, span};
ghost use Rattle.rules.specs.Record.{index, state_at};
ghost use Rattle.rules.specs.Refusals.{index_of, answer_of, target_of, step_of};
ghost use Rattle.crossing.specs.Told.{told, telling, walked, step_telling, found, verdict_telling};

use rules::{CompactReader, Cursor, Flaw, Refusal, State, Stayed, Target};

// The index of a state's five numbers and the five lent tables, to read.
pub fn reader<'a>(
    state: &[u64; 5],
    starts: &'a [u64],
    bases: &'a [u64],
    offsets: &'a [u64],
    widths: &'a [u8],
    bytes: &'a [u8],
) -> CompactReader<'a>
    ensures { index_of result ≡ index (state_at state.now) starts.now bases.now offsets.now widths.now bytes.now }
{
    CompactReader {
        state: State::from(*state),
        starts,
        bases,
        offsets,
        widths,
        bytes,
    }
}

// Tells an answer: 0 and the value, or the refusal's number alone.
pub fn tell<T: Copy>(answer: Result<T, Refusal>, behind: &mut T) -> u64
    ensures { told result behind.new ≡ telling (answer_of answer) behind.old }
{
    match answer {
        Ok(a) => {
            *behind = a;
            0
        }
        Err(e) => u64::from(e),
    }
}

// Tells a target range: 0 and its start and end, or the refusal's number alone.
pub fn tell_target(target: Result<Target, Refusal>, start: &mut u64, end: &mut u64) -> u64
    ensures { told result (span start.new end.new) ≡ telling (target_of target) (span start.old end.old) }
{
    match target {
        Ok(span) => {
            *start = span.start;
            *end = span.end;
            0
        }
        Err(e) => u64::from(e),
    }
}

// Tells a step: 0 and done; 0, the value and the moved cursor; or the refusal's number alone.
pub fn tell_step(
    step: Result<Option<(u64, Cursor)>, Stayed>,
    cursor: &mut [u64; 2],
    value: &mut u64,
    done: &mut u64,
) -> u64
    ensures { told result (walked (cursor_at cursor.new) value.new done.new) ≡ step_telling (step_of step) (walked (cursor_at cursor.old) value.old done.old) }
{
    match step {
        Ok(None) => {
            *done = 1;
            0
        }
        Ok(Some((v, c))) => {
            *cursor = c.into();
            *value = v;
            *done = 0;
            0
        }
        Err(stayed) => {
            *cursor = stayed.cursor.into();
            u64::from(stayed.refusal)
        }
    }
}

// Tells a verdict: the letter's number and the segment, or 0 and 0 where all is well formed.
pub fn tell_verdict(verdict: Result<(), Flaw>, letter: &mut u64, segment: &mut u64)
    ensures { found letter.new segment.new ≡ verdict_telling (verdict_of verdict) }
{
    match verdict {
        Ok(()) => {
            *letter = 0;
            *segment = 0;
        }
        Err(flaw) => {
            *letter = u64::from(flaw.letter);
            *segment = flaw.segment;
        }
    }
}
