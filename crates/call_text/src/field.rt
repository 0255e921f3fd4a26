// The number of a field: an optional minus and decimal digits, of any length.
ghost use Rattle.std.specs.Prelude.{true, ◌≡◌, ◌≤◌, length};
ghost use Rattle.text.specs.Numeral.{leading_zero, value_from};
ghost use Rattle.integer.specs.Within.{all_within};
ghost use Rattle.call_text.specs.Numbers.{digit_limit, numeral, signed_of, unsigned_of};

use integer::with_sign;

// A number of more digits than this stands for `BEYOND`, which is out of every range.
const DIGITS: usize = 10;

pub(crate) const BEYOND: u64 = 9_999_999_999;

fn all_digits(field: &[u8]) -> bool
    ensures { result ≡ all_within 48 57 field.now }
{
    field.iter().all(|b| b'0' <= *b && *b <= b'9')
}

// The value of at most 10 digits.
// No plainer: `str::parse` takes a plus and leading zeros and wants a str, so the tests of a field and of its length would stand beside it.
#[tactic(auto, using(crate::proofs::Digits::values))]
fn value(field: &[u8]) -> u64
    requires { (length field.now ≤ digit_limit) × (all_within 48 57 field.now ≡ true) }
    ensures { result ≡ value_from 0 field.now }
{
    let mut value: u64 = 0;
    for b in field {
        value = value * 10 + u64::from(*b - b'0');
    }
    value
}

#[tactic(auto, using(crate::proofs::Digits::zeros))]
fn leading_zero(field: &[u8]) -> bool
    ensures { result ≡ leading_zero field.now }
{
    matches!(field, [b'0', _, ..])
}

#[tactic(auto, unfolding(crate::specs::Numbers::numeral))]
fn is_numeral(field: &[u8]) -> bool
    ensures { result ≡ numeral field.now }
{
    !field.is_empty() && !leading_zero(field) && all_digits(field)
}

#[tactic(auto, using(crate::proofs::Digits::naturals))]
fn natural(field: &[u8]) -> Option<u64>
    ensures { result ≡ unsigned_of field.now }
{
    if !is_numeral(field) {
        return None;
    }
    if DIGITS < field.len() {
        return Some(BEYOND);
    }
    Some(value(field))
}

#[tactic(auto, using(crate::proofs::Digits::signs))]
pub fn number(field: &[u8]) -> Option<i64>
    ensures { result ≡ signed_of field.now }
{
    let Some(digits) = field.strip_prefix(b"-") else {
        let whole = natural(field)?;
        return Some(with_sign(false, whole));
    };
    let x = natural(digits)?;
    if x == 0 {
        return None;
    }
    Some(with_sign(true, x))
}
