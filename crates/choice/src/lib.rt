// The thresholds and the choice of a turn.
#![tactic(auto)]

ghost use Rattle.std.specs.Prelude.{◌≡◌, ◌*◌, ◌≤◌, nat_abs};
ghost use Rattle.choice.specs.Threshold.{threshold};
ghost use Rattle.choice.specs.Choice.{choose, smallest_fit};
ghost use Rattle.choice.specs.Widest.{widest};

// What the choice rule gives a pair that is turned: the l, and whether the sign f is −1.
#[derive(Clone, Copy, Debug, PartialEq, Eq)]
pub struct Turn {
    pub l: u32,
    pub minus: bool,
}

// T_l stands at l − 1.
const THRESHOLDS: [u64; 14] = [
    108406627, 15278151, 6575832, 3179943, 1577102, 786961, 393283, 196617, 98306, 49153, 24577,
    12289, 6145, 3073,
];

// T_l.
pub fn threshold_of(l: u32) -> u64
    requires { (1 ≤ l) × (l ≤ 14) }
    ensures { result ≡ threshold l }
{
    THRESHOLDS[(l - 1) as usize]
}

// The smallest l from 1 to 14 that fits y and g.
#[tactic(auto, using(crate::proofs::ProvedBy::smallest_fit))]
fn smallest_fit(y: u64, g: u64, minus: bool) -> Option<Turn>
    requires { (y ≤ 2 * widest) × (g ≤ 2 * widest) }
    ensures { result ≡ smallest_fit y g minus 1 14 }
{
    let scaled = y * 0x100_0000;
    for l in 1..=14 {
        if threshold_of(l) * g <= scaled {
            return Some(Turn { l, minus });
        }
    }
    None
}

// The turn of a pair p < q, from a_pp, a_qq and a_pq.
#[tactic(auto, using(crate::proofs::ProvedBy::choose_turn))]
pub fn choose_turn(app: i64, aqq: i64, apq: i64) -> Option<Turn>
    requires { (nat_abs app ≤ widest) × (nat_abs aqq ≤ widest) × (nat_abs apq ≤ widest) }
    ensures { result ≡ choose app aqq apq }
{
    if apq == 0 {
        return None;
    }
    let difference = aqq - app;
    let minus = (apq < 0) == (difference < 0);
    smallest_fit(
        2 * integer::magnitude(apq),
        integer::magnitude(difference),
        minus,
    )
}
