// A delta run: one segment's packed bytes with its base and width, and what it answers.
#![tactic(auto)]

ghost use Rattle.std.specs.Prelude.{◌≡◌};
ghost use Rattle.rules.specs.Reading.{run_count_rule, run_value_rule};
ghost use Rattle.rules.specs.Refusals.{answer_of};

use rules::Refusal;

// One segment's packed bytes, its base and its width.
#[derive(Clone, Copy)]
pub struct DeltaRun<'a> {
    // The deltas, each of `width` bytes, least significant byte first.
    pub bytes: &'a [u8],
    // What each delta is added to.
    pub base: u64,
    // How many bytes a delta has, 1 to 8.
    pub width: u64,
}

impl<'a> DeltaRun<'a> {
    // How many deltas the run has; bytes past the last whole delta are not counted.
    pub fn count(self) -> Result<u64, Refusal>
        ensures { answer_of result ≡ run_count_rule self.entry.bytes.now self.entry.width }
    {
        count_of(self.bytes, self.width)
    }

    // The run's value number i: its base and delta number i.
    pub fn value(self, i: u64) -> Result<u64, Refusal>
        ensures { answer_of result ≡ run_value_rule self.entry.bytes.now self.entry.base self.entry.width i }
    {
        value_of(self.bytes, self.base, self.width, i)
    }
}

// How many deltas of this width the bytes hold.
#[tactic(auto, unfolding(rules::specs::Reading::run_count_rule, rules::specs::Words::when_all))]
pub fn count_of(bytes: &[u8], width: u64) -> Result<u64, Refusal>
    ensures { answer_of result ≡ run_count_rule bytes.now width }
{
    if width < 1 || 8 < width {
        return Err(Refusal::Damaged);
    }
    Ok(bytes.len() as u64 / width)
}

// Delta number i of the bytes, added to the base.
#[tactic(auto, using(laws::proofs::Bytes::room_fits), unfolding(rules::specs::Reading::run_count_rule, rules::specs::Reading::run_value_rule, rules::specs::Words::when_all))]
pub fn value_of(bytes: &[u8], base: u64, width: u64, i: u64) -> Result<u64, Refusal>
    ensures { answer_of result ≡ run_value_rule bytes.now base width i }
{
    let count = count_of(bytes, width)?;
    if count <= i {
        return Err(Refusal::Position);
    }
    let delta = delta::delta_at(bytes, i * width, width);
    base.checked_add(delta).ok_or(Refusal::Damaged)
}
