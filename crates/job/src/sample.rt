// The line `S`.
ghost use Rattle.std.specs.Prelude.{◌≡◌, ◌≤◌, replicate};
ghost use Rattle.job.specs.inner.LineScan.{numbers_at, line_at};

use crate::field::{Field, number, tagged};

// The dilution and the counts, and 0 past the last of them; and the place after the line feed that ends the line.
#[derive(Clone, Copy)]
pub struct Line {
    pub numbers: [u32; 9],
    pub next: usize,
}

// The numbers of a line after its tag: a tab follows each of the first `inner`, and a line feed the one after them.
// Not inlined: where n is known to be at most 8 its loop is unrolled eight times, and reading took 1.5 to 2 times as long.
#[inline(never)]
fn numbers_at(text: &[u8], from: usize, inner: usize) -> Option<Line>
    requires { inner ≤ 8 }
    ensures { result ≡ numbers_at text.now (replicate 9 0) from 0 inner }
{
    let mut numbers = [0; 9];
    let mut at = from;
    for i in 0..inner {
        let Field::Inner(value, next) = number(text, at) else {
            return None;
        };
        numbers[i] = value;
        at = next;
    }
    let Field::Last(value, next) = number(text, at) else {
        return None;
    };
    numbers[inner] = value;
    Some(Line { numbers, next })
}

// The line that starts at a place of the text, as a sample of n counts. A malformed line is none.
#[tactic(auto, using(crate::proofs::ProvedBy::sample_line), unfolding(crate::specs::inner::LineScan::line_at))]
pub(crate) fn sample_line(text: &[u8], at: usize, n: usize) -> Option<Line>
    requires { n ≤ 8 }
    ensures { result ≡ line_at text.now at 83 n }
{
    if tagged(text, at, b'S') {
        numbers_at(text, at + 2, n)
    } else {
        None
    }
}
