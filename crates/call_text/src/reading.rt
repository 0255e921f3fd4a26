// Numbers of a line as readings, which are handed over in 32 bits.
ghost use Rattle.std.specs.Prelude.{◌++◌, map, ◌≡◌, ◌≤◌, drop, length};
ghost use Rattle.call_text.specs.Calls.{reading};

// A negative number, or one beyond 32 bits, is read as the largest one: it is out of every range.
#[tactic(auto, using(crate::proofs::Readings::as_readings))]
fn reading(x: i64) -> u32
    ensures { result ≡ reading x }
{
    u32::try_from(x).unwrap_or(u32::MAX)
}

// The readings of the numbers, at the front of the lent array.
#[tactic(auto, using(crate::proofs::Readings::as_readings))]
pub fn put_readings(numbers: &[i64], readings: &mut [u32])
    requires { length numbers.now ≤ length readings.old }
    ensures { readings.new ≡ map reading numbers.now ++ drop (length numbers.now) readings.old }
{
    for (i, x) in numbers.iter().enumerate() {
        readings[i] = reading(*x);
    }
}
