// Opening an index.
#![tactic(auto)]

ghost use Rattle.std.specs.Prelude.{◌≡◌};
ghost use Rattle.rules.specs.Record.{default_minimum, fresh_state, open_rule};
ghost use Rattle.rules.specs.Refusals.{answer_of};

use rules::{Refusal, State};

// Opens an empty index with this minimum width.
#[tactic(auto, unfolding(rules::specs::Record::open_rule, rules::specs::Words::when_all))]
pub fn compact_index(minimum: u64) -> Result<State, Refusal>
    ensures { answer_of result ≡ open_rule minimum }
{
    if minimum < 1 || 8 < minimum {
        return Err(Refusal::Minimum);
    }
    Ok(fresh(minimum))
}

// Opens an empty index with no minimum width given.
pub fn default_index() -> State
    ensures { result ≡ fresh_state default_minimum }
{
    fresh(rules::DEFAULT_MINIMUM)
}

// The state with this minimum width and all counts 0.
fn fresh(minimum: u64) -> State
    ensures { result ≡ fresh_state minimum }
{
    State {
        minimum,
        length: 0,
        segments: 0,
        widths: 0,
        used: 0,
    }
}
