// Two entries turned by a rotation.
ghost use Rattle.std.specs.Prelude.{◌≡◌, ◌+◌, ◌*◌, ◌<◌, ◌≤◌, ◌^◌, nat_abs};
ghost use Rattle.turn.specs.Rotation.{first, rotation_of};
ghost use Rattle.turn.specs.inner.Rotation.{inverse};

// c, s and N of a turn.
#[derive(Clone, Copy)]
pub struct Rotation {
    pub c: i64,
    pub s: i64,
    pub n: u64,
}

impl Rotation {
    // The rotation that l and the sign f stand for; `minus` says that f is −1.
    #[tactic(auto, using(crate::proofs::ProvedBy::of), unfolding(crate::specs::Rotation::rotation_of))]
    pub fn of(l: u32, minus: bool) -> Self
        requires { (1 ≤ l) × (l ≤ 14) }
        ensures { result ≡ rotation_of l minus }
    {
        let power = 1u64 << (2 * l);
        Self {
            c: power as i64 - 1,
            s: integer::with_sign(minus, 1u64 << (l + 1)),
            n: power + 1,
        }
    }

    // The rotation back.
    #[tactic(auto, using(crate::proofs::ProvedBy::inverse), unfolding(crate::specs::inner::Rotation::inverse))]
    pub(crate) fn inverse(self) -> Self
        requires { nat_abs self.s < 2 ^ 63 }
        ensures { result ≡ inverse self }
    {
        Self {
            c: self.c,
            s: -self.s,
            n: self.n,
        }
    }
}

// rnd((c×x + s×y)/N). The other entry of the pair, rnd((−s×x + c×y)/N), is the inverse rotation's of y and x.
pub(crate) fn turned(r: Rotation, x: i64, y: i64) -> i64
    requires { (0 < r.n) × (nat_abs r.c * nat_abs x + nat_abs r.s * nat_abs y + r.n < 2 ^ 63) }
    ensures { result ≡ first r x y }
{
    rounding::nearest(r.c * x + r.s * y, r.n)
}
