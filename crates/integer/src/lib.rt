// The size of a signed number, and a size with a sign. The theory of whole numbers is in specs/.
#![tactic(auto)]

ghost use Rattle.std.specs.Prelude.{◌≡◌, ◌<◌, ◌^◌, nat_abs};
ghost use Rattle.integer.specs.Signed.{signed};

// |z|
pub fn magnitude(z: i64) -> u64
    ensures { result ≡ nat_abs z }
{
    z.unsigned_abs()
}

// f × x, where f is −1 or +1.
#[tactic(auto, unfolding(crate::specs::Signed::signed))]
pub fn with_sign(minus: bool, x: u64) -> i64
    requires { x < 2 ^ 63 }
    ensures { result ≡ signed minus x }
{
    if minus { -(x as i64) } else { x as i64 }
}
