// The audit of an index over lent tables: well formed, or the first rule that fails and its segment.
#![tactic(auto)]

ghost use Rattle.std.specs.Prelude.{◌≡◌, ◌<◌, true, false, MatchResult};
ghost use Rattle.rules.specs.Words.{when};
ghost use Rattle.rules.specs.Audit.{well_formed, flaw, letter_of, first_flaw, rules_of, audit_rule, verdict_of};
ghost use Rattle.rules.specs.Refusals.{index_of};
ghost use Rattle.audit_rules.specs.Letters.{rules_cto_f};

use rules::{CompactReader, Flaw, Letter, Width};
use tables::Segment;

// The audit: counts (A) first with segment 0, then segments in order, rules B to F within each.
#[tactic(auto, using(crate::proofs::Order::audit_counts, crate::proofs::Order::audit_start, crate::proofs::Order::audit_on, crate::proofs::Order::audit_stop, crate::proofs::Order::audit_end, laws::proofs::Counts::facts_counts))]
pub fn audit(x: &CompactReader<'_>) -> Result<(), Flaw>
    ensures { verdict_of result ≡ audit_rule (index_of x.now) }
{
    let Ok(counted) = tables::check_counts(x) else {
        return Err(Flaw {
            letter: Letter::A,
            segment: 0,
        });
    };
    for k in 0..x.state.segments {
        audit_segment(counted.segment(k))?;
    }
    Ok(())
}

// The first rule, B to F, that segment g breaks.
#[tactic(auto, using(crate::proofs::Order::flaw_here, crate::proofs::Order::flaw_next, crate::proofs::Order::tests_tell), unfolding(rules::specs::Refusals::width_at))]
fn audit_segment(g: Segment<'_>) -> Result<(), Flaw>
    ensures { verdict_of result ≡ first_flaw g.entry.k (rules_of (index_of g.entry.counted.index.now) g.entry.k) }
{
    let index = g.counted.index;
    let k = g.k;
    keeps(audit_rules::rule_b(index, k), Letter::B, k)?;
    let d = audit_rules::deltas_of(index, k);
    let Width::Of(w) = g.width() else {
        return keeps(audit_rules::rule_e_without_width(index, k, d), Letter::E, k);
    };
    audit_with_width(g, d, w as u64)
}

// The first rule, C to F, that segment g breaks with its d deltas of width w.
#[tactic(auto, using(crate::proofs::Order::flaw_here, crate::proofs::Order::flaw_next, crate::proofs::Order::flaw_last, audit_rules::proofs::Letters::f_same, crate::proofs::Order::tests_tell, laws::proofs::Tests::taken, laws::proofs::Tests::left))]
fn audit_with_width(g: Segment<'_>, d: u64, w: u64) -> Result<(), Flaw>
    requires { g.k < g.counted.index.now.state.widths }
    ensures { verdict_of result ≡ first_flaw g.entry.k (rules_cto_f (index_of g.entry.counted.index.now) g.entry.k d w) }
{
    let index = g.counted.index;
    let k = g.k;
    keeps(audit_rules::rule_c(index.state.minimum, w), Letter::C, k)?;
    keeps(audit_rules::rule_d(index, k, w), Letter::D, k)?;
    keeps(audit_rules::rule_e(index, k, d, w), Letter::E, k)?;
    let offset = tables::mark(index, k);
    keeps(
        audit_rules::rule_f(index.bytes, g.base(), offset, d, w),
        Letter::F,
        k,
    )
}

// A rule that segment k keeps, or its letter as the flaw.
fn keeps(kept: bool, letter: Letter, segment: u64) -> Result<(), Flaw>
    ensures kept { MatchResult result (λ _. kept ≡ true) (λ _. kept ≡ false) }
    ensures flaw { verdict_of result ≡ when kept well_formed (flaw (letter_of letter) segment) }
{
    if kept {
        Ok(())
    } else {
        Err(Flaw { letter, segment })
    }
}
