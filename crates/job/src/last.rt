// The line `E`.
ghost use Rattle.std.specs.Prelude.{◌≡◌};
ghost use Rattle.job.specs.inner.LineScan.{ending_at};

use crate::field::{Field, number, tagged};
use refusal::Refusal;

// The line that starts at a place of the text, as the last of a job of k samples.
pub(crate) fn last_line(text: &[u8], at: usize, k: usize) -> Result<(), Refusal>
    ensures { result ≡ ending_at text.now at k }
{
    if !tagged(text, at, b'E') {
        return Err(Refusal::Malformed);
    }
    let Field::Last(count, next) = number(text, at + 2) else {
        return Err(Refusal::Malformed);
    };
    if k < limits::LEAST_SAMPLES {
        return Err(Refusal::SampleCount);
    }
    if count as usize != k {
        return Err(Refusal::WrongEnd);
    }
    if next < text.len() {
        return Err(Refusal::WrongEnd);
    }
    Ok(())
}
