// IEEE 754 binary64 numbers: a kept entry or an error times 2^e / 1024, and the bytes of a number.
#![tactic(auto)]

ghost use Rattle.std.specs.Prelude.{◌<◌, ◌≤◌, ◌^◌, ◌≡◌, not, T, pos, nat_abs, length};
ghost use Rattle.std.specs.Float.Ieee.{is_nan};
ghost use Rattle.limits.specs.Limits.{most_shift};
ghost use Rattle.binary64.specs.Binary64.{binary64_of, bytes_of};
ghost use Rattle.text.specs.Put.{Put};

// 2^e / 1024: a quotient of powers of two, so it is exact.
fn factor(e: u32) -> f64
    requires { e ≤ most_shift }
    ensures { result ≡ binary64_of (pos 1) e }
{
    (1u64 << e) as f64 / limits::UNITS as f64
}

// z × 2^e / 1024: a whole number of at most 53 digits, which binary64 holds, times a power of two, so it is exact.
pub fn scaled(z: i64, e: u32) -> f64
    requires { (nat_abs z < 2 ^ 53) × (e ≤ most_shift) }
    ensures { result ≡ binary64_of z e }
{
    z as f64 * factor(e)
}

// The eight bytes of x, least significant first. A NaN has no bits of its own.
pub fn bytes_of(x: f64) -> [u8; 8]
    requires { T (not (is_nan x)) }
    ensures { result ≡ bytes_of x }
{
    x.to_bits().to_le_bytes()
}

// The eight bytes of x, at the front of the buffer; the answer is how many they are.
pub fn put_binary64(buf: &mut [u8], x: f64) -> usize
    requires { (8 ≤ length buf.old) × T (not (is_nan x)) }
    ensures { Put (bytes_of x) 0 buf.old buf.new result }
{
    text::put_bytes(buf, &bytes_of(x))
}
