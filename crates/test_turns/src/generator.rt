// The test values, by the rule in main.rt. Each is a function of its number, so that no state is carried.
ghost use Rattle.std.specs.Prelude.{◌≡◌, ◌+◌, ◌*◌, ◌<◌, ◌≤◌, ◌^◌, nat_abs};
ghost use Rattle.integer.specs.Signed.{signed};
ghost use Rattle.turn.specs.Size.{Small};
ghost use Rattle.turn.specs.inner.Size.{SymmetricRows};
ghost use Rattle.test_turns.specs.Generator.{axes_of, draw_of, matrix_of, minus_of, row_of, size_from, size_of, value_of};

// x² mod P.
fn square(x: u64) -> u64
    requires { x < 2 ^ 31 }
    ensures { result ≡ Rattle.test_turns.specs.Generator.square x }
{
    x * x % 2147483647
}

pub fn draw(k: u64) -> u64
    ensures { result ≡ draw_of k }
{
    square(k % 2147483647 * 742938285 % 2147483647)
}

// A number below `end`, from one draw.
pub fn pick(k: u64, end: u64) -> u64
    requires { 0 < end }
    ensures { result < end }
{
    draw(k) % end
}

// A size up to `most`, from a number below 2^62 and the third draw.
#[tactic(auto, using(std::proofs::lemmas::Bool::ne_eqb), unfolding(crate::specs::Generator::size_from))]
fn size_from(wide: u64, mode: u64, most: u64) -> u64
    requires { (3 ≤ most) × (most < 2 ^ 63) }
    ensures { result ≡ size_from wide mode most }
{
    match mode % 4 {
        0 => wide % 4,
        1 => most - wide % 4,
        2 => wide % (most + 1),
        _ => (wide >> (mode / 4 % 62)) % (most + 1),
    }
}

#[tactic(auto, using(crate::proofs::Values::sizes))]
pub fn size(k: u64, most: u64) -> u64
    requires { (k < 2 ^ 40) × (3 ≤ most) × (most < 2 ^ 63) }
    ensures { (result ≡ size_of k most) × (result ≤ most) }
{
    size_from(
        draw(3 * k) * 0x8000_0000 + draw(3 * k + 1),
        draw(3 * k + 2),
        most,
    )
}

pub fn minus(k: u64) -> bool
    requires { k < 2 ^ 40 }
    ensures { result ≡ minus_of k }
{
    draw(3 * k + 2) / 256 % 2 == 1
}

// The size with the sign of value k.
#[tactic(auto, using(crate::proofs::Values::signs))]
pub fn with_sign(k: u64, size: u64) -> i64
    requires { (k < 2 ^ 40) × (size < 2 ^ 63) }
    ensures { (result ≡ signed (minus_of k) size) × (nat_abs result ≡ size) }
{
    integer::with_sign(minus(k), size)
}

#[tactic(auto, using(integer::specs::laws::Word::word), unfolding(crate::specs::Generator::value_of))]
pub fn value(k: u64, most: u64) -> i64
    requires { (k < 2 ^ 40) × (3 ≤ most) × (most < 2 ^ 63) }
    ensures { (result ≡ value_of k most) × (nat_abs result ≤ most) }
{
    with_sign(k, size(k, most))
}

// x × y, of sizes whose product fits.
pub fn product(x: u64, y: u64) -> u64
    requires { (x ≤ 2 ^ 18) × (y ≤ 2 ^ 42) }
    ensures { result ≤ 2 ^ 60 }
{
    x * y
}

// No plainer: by from_fn over a table of the offsets each closure needs clauses of its own, and a bound on the table's numbers
#[tactic(auto, using(integer::specs::laws::Word::word), unfolding(turn::specs::Turn::eight, crate::specs::Generator::row_of))]
fn row(key: u64, most: u64) -> [i64; 8]
    requires { (key < 2 ^ 39) × (3 ≤ most) × (most < 2 ^ 63) }
    ensures { result ≡ row_of key most }
{
    [
        value(key + 1, most),
        value(key + 2, most),
        value(key + 4, most),
        value(key + 8, most),
        value(key + 13, most),
        value(key + 21, most),
        value(key + 31, most),
        value(key + 45, most),
    ]
}

// A symmetric matrix of entries up to the largest that a turn takes.
pub fn matrix(base: u64) -> [[i64; 8]; 8]
    requires { base < 2 ^ 38 }
    ensures { (result ≡ matrix_of base) × Small result × SymmetricRows result }
{
    [
        row(base + 1, 0x4_0000_0700),
        row(base + 2, 0x4_0000_0700),
        row(base + 4, 0x4_0000_0700),
        row(base + 8, 0x4_0000_0700),
        row(base + 13, 0x4_0000_0700),
        row(base + 21, 0x4_0000_0700),
        row(base + 31, 0x4_0000_0700),
        row(base + 45, 0x4_0000_0700),
    ]
}

// Axes, of entries up to 2^30 + 448.
pub fn axes(base: u64) -> [[i64; 8]; 8]
    requires { base < 2 ^ 38 }
    ensures { (result ≡ axes_of base) × Small result }
{
    [
        row(base + 64, 0x4000_01c0),
        row(base + 128, 0x4000_01c0),
        row(base + 192, 0x4000_01c0),
        row(base + 256, 0x4000_01c0),
        row(base + 320, 0x4000_01c0),
        row(base + 384, 0x4000_01c0),
        row(base + 448, 0x4000_01c0),
        row(base + 512, 0x4000_01c0),
    ]
}
