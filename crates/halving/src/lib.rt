// The halving rule over any test: one loop, with the test as a parameter.
#![tactic(auto)]

ghost use Rattle.std.specs.Prelude.{◌≡◌, ℕ, Bool, ◌^◌, ◌<◌};
ghost use Rattle.rules.specs.Reading.{halving};
ghost use Rattle.halving.specs.Tests.{Tells};

// The halving over n entries: the number that it ends at, whatever the test says of each.
pub fn halving<F: Fn(u64) -> bool>(n: u64, test: F) -> u64
    requires fits { n < 2 ^ 63 }
    requires asks { (i : ℕ) → i < n → F.pre test i }
    ensures { (t : ℕ → Bool) → Tells (F.post test) t n → result ≡ (halving t n).number }
{
    let mut low: u64 = 0;
    let mut high: u64 = n;
    loop {
        if high <= low {
            break low;
        }
        let mid = (low + high) / 2;
        if test(mid) {
            low = mid + 1;
        } else {
            high = mid;
        }
    }
}
