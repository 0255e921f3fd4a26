// The line `P`.
ghost use Rattle.std.specs.Prelude.{◌≡◌};
ghost use Rattle.job.specs.inner.LineScan.{parameters_at};

use crate::field::{Field, number, tagged};
use refusal::Refusal;

// The line's numbers, and the place after it.
#[derive(Clone, Copy)]
pub struct Parameters {
    pub n: usize,
    pub limit: u64,
    pub tolerance: u64,
    pub next: usize,
}

pub(crate) fn first_line(text: &[u8]) -> Result<Parameters, Refusal>
    ensures { result ≡ parameters_at text.now }
{
    if !tagged(text, 0, b'P') {
        return Err(Refusal::Malformed);
    }
    let Field::Inner(n, second) = number(text, 2) else {
        return Err(Refusal::Malformed);
    };
    let Field::Inner(limit, third) = number(text, second) else {
        return Err(Refusal::Malformed);
    };
    let Field::Last(tolerance, next) = number(text, third) else {
        return Err(Refusal::Malformed);
    };
    let parameters = Parameters {
        n: n as usize,
        limit: u64::from(limit),
        tolerance: u64::from(tolerance),
        next,
    };
    if !readings::parameters_within(parameters.n, parameters.limit, parameters.tolerance) {
        return Err(Refusal::OutOfRange);
    }
    Ok(parameters)
}
