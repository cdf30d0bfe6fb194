// push: its plan, then the plan's effect on the lent tables.
#![tactic(auto)]

ghost use Rattle.std.specs.Prelude.{◌≡◌, ◌+◌, ◌≤◌, ◌<◌, ◌^◌, length};
ghost use Rattle.rules.specs.Words.{value};
ghost use Rattle.rules.specs.Push.{with_first, outcome, effect, push_rule};
ghost use Rattle.rules.specs.Refusals.{index_in, answer_of, SameTables};
ghost use Rattle.push_plan.specs.Plans.{planned, HasRoom};

use push_plan::Plan;
use rules::{CompactWriter, Refusal};

// Appends the value `v` to the index and answers its position.
#[tactic(auto, unfolding(rules::specs::Push::push_rule))]
pub fn push(x: &mut CompactWriter<'_>, v: u64) -> Result<u64, Refusal>
    ensures answers { outcome (answer_of result) (index_in x.new) ≡ push_rule (index_in x.old) v }
    ensures lent { SameTables x.new x.old }
{
    let plan = push_plan::plan_push(&x.reader(), v)?;
    Ok(carry_out(x, plan, v))
}

// Does what a plan for `v` says and answers the value's position.
fn carry_out(x: &mut CompactWriter<'_>, plan: Plan, v: u64) -> u64
    requires { HasRoom (index_in x.old) (planned (Ok plan)) }
    ensures answers { outcome (value result) (index_in x.new) ≡ effect (index_in x.old) v (planned (Ok plan)) }
    ensures lent { SameTables x.new x.old }
{
    match plan {
        Plan::Segment => push_effect::start_segment(x, v),
        Plan::First(delta, need) => {
            x.widths[x.state.widths as usize] = need as u8;
            x.state.widths += 1;
            push_effect::push_delta(x, delta, need)
        }
        Plan::More(delta, width) => push_effect::push_delta(x, delta, width),
    }
}
