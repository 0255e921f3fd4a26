// Rounding to nearest, halves away from zero: the whole number nearest to u/w.
#![tactic(auto)]

ghost use Rattle.std.specs.Prelude.{◌≡◌, ◌+◌, ◌/◌, ◌<◌, ◌^◌, nat_abs};
ghost use Rattle.rounding.specs.Rounding.{rnd};
ghost use Rattle.rounding.specs.inner.Rounding.{sign};

// −1 for a negative u, and 1 for any other.
// No plainer: `signum` gives 0 for 0, and a library method, whose body isn't here, may branch (.ci/branchless).
#[tactic(auto, using(crate::proofs::Sign::signs))]
fn sign_of(u: i64) -> i64
    ensures { result ≡ sign u }
{
    2 * (u >> 63) + 1
}

// The whole number nearest to size/w, a half upward.
fn nearest_size(size: u64, w: u64) -> u64
    requires { (0 < w) × (size + w / 2 < 2 ^ 64) }
    ensures { result ≡ (size + w / 2) / w }
{
    (size + w / 2) / w
}

// rnd(u/w): |u| is rounded and gets u's sign, so that what is divided is never negative; u is never doubled.
#[tactic(auto, using(crate::proofs::Sign::roundings))]
pub fn nearest(u: i64, w: u64) -> i64
    requires { (0 < w) × (w < 2 ^ 63) × (nat_abs u + w / 2 < 2 ^ 63) }
    ensures { result ≡ rnd u w }
{
    let sign = sign_of(u);
    let size = (sign * u) as u64;
    sign * nearest_size(size, w) as i64
}
