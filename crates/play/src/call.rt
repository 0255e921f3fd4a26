// A request, made on a lent record.
ghost use Rattle.std.specs.Prelude.{◌≡◌, length};
ghost use Rattle.record.specs.Kept.{Kept};
ghost use Rattle.call_text.specs.Requests.{Placed, request_call};
ghost use Rattle.play.specs.inner.Calls.{Answers};

use call_text::request::Request;
use readings::Samples;
use record::{AxisAnswer, Record, lent};

// The request of a line with these numbers, and with the readings of those that are samples.
pub(crate) fn call(
    r: &mut Record,
    request: Request,
    numbers: &[i64],
    readings: &[u32],
) -> AxisAnswer
    requires { Kept r.old × Placed (length numbers.now) request × Placed (length readings.now) request }
    ensures { Answers r.old (request_call request numbers.now readings.now) result r.new }
{
    match request {
        Request::Load { bench, n, from, to } => {
            let numbers = &numbers[from..to];
            AxisAnswer::from(lent::load(r, bench, n, numbers))
        }
        Request::LoadSamples {
            bench,
            n,
            from,
            middle,
            to,
        } => {
            let dilutions = &readings[from..middle];
            let counts = &readings[middle..to];
            let samples = Samples {
                n,
                dilutions,
                counts,
            };
            AxisAnswer::from(lent::load_samples(r, bench, &samples))
        }
        Request::Turn { bench, p, q } => AxisAnswer::from(lent::turn(r, bench, p, q)),
        Request::Sweep(bench) => AxisAnswer::from(lent::sweep(r, bench)),
        Request::LoosePair { bench, t } => AxisAnswer::from(lent::loose_pair(r, bench, t)),
        Request::Axis { bench, i } => lent::axis(r, bench, i),
        Request::TournamentSweep(bench) => AxisAnswer::from(lent::tournament_sweep(r, bench)),
    }
}
