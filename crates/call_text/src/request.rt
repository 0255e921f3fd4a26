// What a line of calls asks for.
ghost use Rattle.std.specs.Prelude.{◌≡◌};
ghost use Rattle.call_text.specs.Calls.{argument, call_by, load_by, named, named_by, samples_by, turn_by};
ghost use Rattle.call_text.specs.Requests.{Asks, asked_for};
ghost use Rattle.call_text.specs.inner.Asked.{alone, only};

use crate::field::BEYOND;
use crate::line::read_fields;

// A call with its bench and its arguments. Of a load's list it has the places among the line's numbers: from `from` to before `to`; of samples the
// dilutions stand before `middle` and the counts from there on.
#[derive(Clone, Copy)]
pub enum Request {
    Load {
        bench: usize,
        n: usize,
        from: usize,
        to: usize,
    },
    LoadSamples {
        bench: usize,
        n: usize,
        from: usize,
        middle: usize,
        to: usize,
    },
    Turn {
        bench: usize,
        p: usize,
        q: usize,
    },
    Sweep(usize),
    LoosePair {
        bench: usize,
        t: u64,
    },
    Axis {
        bench: usize,
        i: usize,
    },
    TournamentSweep(usize),
}

// The most numbers of a line.
pub const NUMBERS: usize = 4096;

// An argument whose range has no negative number: a negative one is out of it.
#[tactic(auto, using(crate::proofs::Asking::arguments))]
pub fn argument(x: i64) -> u64
    ensures { result ≡ argument x }
{
    u64::try_from(x).unwrap_or(BEYOND)
}

// The numbers are those after the bench, here and in what follows; the places count the bench too.
#[tactic(auto, using(crate::proofs::Asking::loads))]
fn load(bench: usize, numbers: &[i64]) -> Option<Request>
    ensures { result ≡ asked_for (named bench (load_by numbers.now)) }
{
    let [n, ..] = numbers else {
        return None;
    };
    Some(Request::Load {
        bench,
        n: argument(*n) as usize,
        from: 2,
        to: numbers.len() + 1,
    })
}

// n and k, the number of samples; then k dilutions, then the counts.
#[tactic(auto, using(crate::proofs::Asking::samples_few))]
fn load_samples(bench: usize, numbers: &[i64]) -> Option<Request>
    ensures { result ≡ asked_for (named bench (samples_by numbers.now)) }
{
    let [n, k, samples @ ..] = numbers else {
        return None;
    };
    let k = usize::try_from(*k).ok()?;
    if samples.len() < k {
        return None;
    }
    Some(Request::LoadSamples {
        bench,
        n: argument(*n) as usize,
        from: 3,
        middle: 3 + k,
        to: numbers.len() + 1,
    })
}

#[tactic(auto, using(crate::proofs::Asking::turns))]
fn turn(bench: usize, numbers: &[i64]) -> Option<Request>
    ensures { result ≡ asked_for (named bench (turn_by numbers.now)) }
{
    let [p, q] = numbers else {
        return None;
    };
    Some(Request::Turn {
        bench,
        p: argument(*p) as usize,
        q: argument(*q) as usize,
    })
}

// A call that has no argument.
#[tactic(auto, using(crate::proofs::Asking::no_more, crate::proofs::Asking::no_others))]
fn alone(request: Request, numbers: &[i64]) -> Option<Request>
    ensures { result ≡ alone request numbers.now }
{
    if numbers.is_empty() {
        Some(request)
    } else {
        None
    }
}

// The argument of a call that has one.
#[tactic(auto, using(crate::proofs::Asking::ones))]
fn only(numbers: &[i64]) -> Option<u64>
    ensures { result ≡ only numbers.now }
{
    let [x] = numbers else {
        return None;
    };
    Some(argument(*x))
}

#[tactic(auto, using(crate::proofs::Asking::tags))]
fn by_tag(tag: u8, bench: usize, numbers: &[i64]) -> Option<Request>
    ensures { result ≡ asked_for (named bench (call_by tag numbers.now)) }
{
    match tag {
        b'L' => load(bench, numbers),
        b'M' => load_samples(bench, numbers),
        b'T' => turn(bench, numbers),
        b'W' => alone(Request::Sweep(bench), numbers),
        b'Q' => {
            let t = only(numbers)?;
            Some(Request::LoosePair { bench, t })
        }
        b'A' => {
            let i = only(numbers)? as usize;
            Some(Request::Axis { bench, i })
        }
        b'O' => alone(Request::TournamentSweep(bench), numbers),
        _ => None,
    }
}

// The bench stands after the tag.
fn by_bench(tag: u8, numbers: &[i64]) -> Option<Request>
    ensures { result ≡ asked_for (named_by tag numbers.now) }
{
    let [bench, arguments @ ..] = numbers else {
        return None;
    };
    by_tag(tag, argument(*bench) as usize, arguments)
}

// The request of a line, whose numbers are in the lent array then. A line has at most as many as the array has places.
pub fn read_line(line: &[u8], numbers: &mut [i64]) -> Option<Request>
    ensures { Asks line.now numbers.old numbers.new result }
{
    let fields = read_fields(line, numbers)?;
    by_bench(fields.tag, &numbers[..fields.count])
}
