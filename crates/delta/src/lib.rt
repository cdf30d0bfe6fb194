// Deltas: the width that one needs, and storing, loading and searching deltas of one to eight bytes, least significant byte first.
#![tactic(auto)]

ghost use Rattle.std.specs.Prelude.{◌≡◌, ◌+◌, ◌*◌, ◌^◌, ◌≤◌, leb, length};
ghost use Rattle.std.proofs.lemmas.List.Edits.{sets};
ghost use Rattle.rules.specs.Push.{byte_width, need_of, delta_bytes, delta_at};
ghost use Rattle.rules.specs.Reading.{delta_below, halving};

// How many bytes a number takes: at least one.
pub fn byte_width(value: u64) -> u64
    ensures { result ≡ byte_width value }
{
    if value == 0 {
        return 1;
    }
    8 - (u64::leading_zeros(value) / 8) as u64
}

// The width that a delta needs: its byte width, or the minimum if that is larger.
pub fn need_of(delta: u64, minimum: u64) -> u64
    ensures { result ≡ need_of delta minimum }
{
    byte_width(delta).max(minimum)
}

// Stores the low `width` bytes of a delta at the front of `tail`, least significant first.
pub fn store_delta(tail: &mut [u8], delta: u64, width: u64)
    requires { width ≤ length tail.old }
    ensures { tail.new ≡ sets tail.old 0 (delta_bytes width delta) }
{
    let mut rest = delta;
    for i in 0..width {
        tail[i as usize] = (rest % 256) as u8;
        rest /= 256;
    }
}

// The delta of `width` bytes that starts at `at`: the eight bytes from there on, or as many as are left, cut to the width.
pub fn delta_at(bytes: &[u8], at: u64, width: u64) -> u64
    requires { (1 ≤ width) × (width ≤ 8) × (at + width ≤ length bytes.now) }
    ensures { result ≡ delta_at bytes.now at width }
{
    let cut = 64 - 8 * width;
    if at + 8 <= bytes.len() as u64 {
        return load(&bytes[at as usize..at as usize + 8]) << cut >> cut;
    }
    load(&bytes[at as usize..]) << cut >> cut
}

// The number that at most eight bytes make, least significant first.
fn load(bytes: &[u8]) -> u64
    requires { length bytes.now ≤ 8 }
    ensures { result ≡ delta_at bytes.now 0 (length bytes.now) }
{
    bytes
        .iter()
        .rev()
        .fold(0, |value, byte| value << 8 | *byte as u64)
}

// The halving over the n deltas from `from` on, with the test "delta below gap".
pub fn count_below(bytes: &[u8], from: u64, width: u64, n: u64, gap: u64) -> u64
    requires { (1 ≤ width) × (width ≤ 8) × (from + n * width ≤ length bytes.now) }
    ensures { result ≡ (halving (delta_below bytes.now from width gap) n).number }
{
    halving::halving(n, |i| delta_at(bytes, from + i * width, width) < gap)
}

// Whether the base and any delta of this width make a sum that fits 64 bits.
pub fn all_fit(base: u64, width: u64) -> bool
    requires { (1 ≤ width) × (width ≤ 8) }
    ensures { result ≡ leb (base + 256 ^ width) (2 ^ 64) }
{
    let most = u64::MAX >> (64 - 8 * width);
    most <= u64::MAX - base
}
