// The audit's rules B to F, each of one segment, as a test.
#![tactic(auto)]

ghost use Rattle.std.specs.Prelude.{◌≡◌, true, false, ℕ, ◌≤◌, ◌<◌, ◌+◌, ◌*◌, ◌^◌, length, IsTrue, ◌↔◌};
ghost use Rattle.rules.specs.Words.{all_below, when_all};
ghost use Rattle.rules.specs.Record.{edge, width_tests};
ghost use Rattle.rules.specs.Push.{delta_at};
ghost use Rattle.rules.specs.Audit.{deltas};
ghost use Rattle.rules.specs.Refusals.{index_of};
ghost use Rattle.audit_rules.specs.Letters.{rule_b, rule_d, rule_e};

use rules::CompactReader;

// B: the first start is 0; a next start is at least this start + 2; the last start is below length.
#[tactic(auto, using(laws::proofs::Tests::taken, laws::proofs::Tests::left))]
pub fn rule_b(x: &CompactReader<'_>, k: u64) -> bool
    requires { (k < x.now.state.segments) × (x.now.state.segments ≤ length x.now.starts.now) }
    ensures { result ≡ when_all (rule_b (index_of x.now) k) true false }
{
    let start = tables::edge(x, k);
    let end = tables::edge(x, k + 1);
    first_is_zero(k, start) && start < end && (x.state.segments <= k + 1 || 2 <= end - start)
}

// C: a width is m to 8.
#[tactic(auto, using(laws::proofs::Tests::taken, laws::proofs::Tests::left))]
pub fn rule_c(minimum: u64, w: u64) -> bool
    ensures { result ≡ when_all (width_tests minimum w) true false }
{
    minimum <= w && w <= 8
}

// D: the next base is at least base + 256^width, which is to say that the gap between them takes more than `width` bytes.
#[tactic(auto, using(laws::proofs::Tests::taken, laws::proofs::Tests::left))]
pub fn rule_d(x: &CompactReader<'_>, k: u64, w: u64) -> bool
    requires { (k < x.now.state.segments) × (x.now.state.segments ≤ length x.now.bases.now) × (1 ≤ w) }
    ensures { result ≡ when_all (rule_d (index_of x.now) k w) true false }
{
    if x.state.segments <= k + 1 {
        return true;
    }
    let base = x.bases[k as usize];
    let next = x.bases[(k + 1) as usize];
    base <= next && w < delta::byte_width(next - base)
}

// E of a segment with a width: the first offset is 0; the deltas times width, added to the offset, give the next offset, or used, and never more than used; there is at least one delta.
#[tactic(auto, using(laws::proofs::Tests::taken, laws::proofs::Tests::left))]
pub fn rule_e(x: &CompactReader<'_>, k: u64, d: u64, w: u64) -> bool
    requires { (k < x.now.state.widths) × (x.now.state.widths ≤ x.now.state.segments) × (x.now.state.segments ≤ length x.now.offsets.now) × (1 ≤ w) }
    ensures { result ≡ when_all (rule_e (index_of x.now) k d w) true false }
{
    let offset = tables::mark(x, k);
    let end = tables::mark(x, k + 1);
    if !first_is_zero(k, offset) || !end_at(offset, d, w, end) {
        return false;
    }
    end <= x.state.used && 1 <= d
}

// E of a last segment without a width: the first offset is 0; its offset is used; it has no deltas.
#[tactic(auto, using(laws::proofs::Tests::taken, laws::proofs::Tests::left))]
pub fn rule_e_without_width(x: &CompactReader<'_>, k: u64, d: u64) -> bool
    requires { (k < x.now.state.segments) × (x.now.state.widths ≤ k) × (x.now.state.segments ≤ length x.now.offsets.now) }
    ensures { (w : ℕ) → result ≡ when_all (rule_e (index_of x.now) k d w) true false }
{
    let offset = tables::mark(x, k);
    first_is_zero(k, offset) && offset == x.state.used && d == 0
}

// F: every base + delta is at most 2^64 - 1. Where any delta of this width would do, none is read.
pub fn rule_f(bytes: &[u8], base: u64, offset: u64, d: u64, w: u64) -> bool
    requires { (1 ≤ w) × (w ≤ 8) × (offset + d * w ≤ length bytes.now) }
    ensures { result ≡ all_below d (λ i. base + delta_at bytes.now (offset + i * w) w) (2 ^ 64) }
{
    if delta::all_fit(base, w) {
        return true;
    }
    let most = u64::MAX - base;
    (0..d).all(|i| delta::delta_at(bytes, offset + i * w, w) <= most)
}

// The number of deltas of segment k: the positions past its start, up to the next start or length.
pub fn deltas_of(x: &CompactReader<'_>, k: u64) -> u64
    requires { (k < x.now.state.segments) × (x.now.state.segments ≤ length x.now.starts.now) × (edge (index_of x.now) k < edge (index_of x.now) (k + 1)) }
    ensures { result ≡ deltas (index_of x.now) k }
{
    tables::edge(x, k + 1) - tables::edge(x, k) - 1
}

// Whether the entry is 0 where segment k is the first.
fn first_is_zero(k: u64, entry: u64) -> bool
    ensures { IsTrue result ↔ (k ≡ 0 → entry ≡ 0) }
{
    k != 0 || entry == 0
}

// Whether d deltas of w bytes from `offset` on end at `end`.
fn end_at(offset: u64, d: u64, w: u64, end: u64) -> bool
    ensures { IsTrue result ↔ (offset + d * w ≡ end) }
{
    d.checked_mul(w).and_then(|n| offset.checked_add(n)) == Some(end)
}
