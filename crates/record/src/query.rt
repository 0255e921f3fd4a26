// What a call answers, and what the queries find in lent rows: a loose pair, and the error of an axis.
ghost use Rattle.std.specs.Prelude.{◌≡◌, cond, ◌<◌, ◌≤◌, eqb, nat_abs};
ghost use Rattle.ledger.specs.Axis.{error_of, table_error};
ghost use Rattle.ledger.specs.Call.{loose_pair, axis};
ghost use Rattle.limits.specs.Limits.{turn_limit};
ghost use Rattle.ledger.specs.Pairs.{cyclic};
ghost use Rattle.ledger.specs.Refusal.{refusal_of};
ghost use Rattle.refusal.specs.Refusal.{judged};
ghost use Rattle.turn.specs.Size.{Small};
ghost use Rattle.turn.specs.Turn.{at};
ghost use Rattle.record.specs.Loose.{loose_of};
ghost use Rattle.record.specs.Record.{is_refused};
ghost use Rattle.record.specs.inner.Found.{Inside, told_pair};

use crate::Record;
use crate::sweep::Place;
use refusal::Refusal;

// What a call answers. No plainer as a Result, or with an Option of a pair: theorems speak of lists of calls and of all their answers.
#[derive(Clone, Copy, Debug, PartialEq, Eq)]
pub enum Answer {
    Loaded,
    SamplesLoaded(u32),
    Turned(bool),
    Swept(u64),
    TournamentSwept(u64),
    Pair { p: usize, q: usize },
    NoPair,
    Axis { entry: i64, error: u64 },
    Refused(Refusal),
}

// Whether a call was refused.
#[tactic(auto, unfolding(crate::specs::Record::is_refused))]
pub(crate) fn is_refused(answer: Answer) -> bool
    ensures { result ≡ is_refused answer }
{
    matches!(answer, Answer::Refused(_))
}

pub(crate) fn check_loose_pair(n: usize, t: u64) -> Result<(), Refusal>
    ensures { result ≡ judged (refusal_of n 0 (loose_pair t)) (record {}) }
{
    if n == 0 {
        return Err(Refusal::NoMatrix);
    }
    if Record::TOLERANCE_LIMIT < t {
        return Err(Refusal::OutOfRange);
    }
    Ok(())
}

pub(crate) fn check_axis(n: usize, i: usize) -> Result<(), Refusal>
    ensures { result ≡ judged (refusal_of n 0 (axis i)) (record {}) }
{
    if n == 0 {
        return Err(Refusal::NoMatrix);
    }
    if i < 1 || n < i {
        return Err(Refusal::OutsideMatrix);
    }
    Ok(())
}

// |a_ij|, i and j from 0.
#[tactic(auto, unfolding(turn::specs::Turn::at))]
fn entry_size(a: &[[i64; 8]; 8], i: usize, j: usize) -> u64
    requires { (i < 8) × (j < 8) }
    ensures { result ≡ nat_abs (at a.now i j) }
{
    integer::magnitude(a[i][j])
}

// The first pair in row order whose entry is above t in size.
// Document 01: 'nested loops over p and q, left by a label at the first entry above tolerance'.
pub(crate) fn loose_pair_of(a: &[[i64; 8]; 8], n: usize, t: u64) -> Option<Place>
    requires { n ≤ 8 }
    ensures is { told_pair result ≡ loose_of (at a.now) t (cyclic n) }
    ensures within { Inside result }
{
    let mut found = None;
    'search: for p in 0..n {
        for q in p + 1..n {
            if t < entry_size(a, p, q) {
                found = Some(Place { p, q });
                break 'search;
            }
        }
    }
    found
}

// The answer that tells it, its numbers from 1.
#[tactic(auto, unfolding(crate::specs::inner::Found::told_pair, crate::specs::inner::Found::Inside))]
pub(crate) fn pair_answer(found: Option<Place>) -> Answer
    requires { Inside found }
    ensures { result ≡ told_pair found }
{
    match found {
        Some(pair) => Answer::Pair {
            p: pair.p + 1,
            q: pair.q + 1,
        },
        None => Answer::NoPair,
    }
}

// What column j adds to the error of the axis in row i.
fn off_diagonal(a: &[[i64; 8]; 8], i: usize, j: usize) -> u64
    requires { (i < 8) × (j < 8) }
    ensures { result ≡ cond (eqb j i) 0 (nat_abs (at a.now i j)) }
{
    if j == i {
        return 0;
    }
    entry_size(a, i, j)
}

// What the error of an axis gains where the table was rounded.
#[tactic(auto, unfolding(ledger::specs::Axis::table_error))]
fn table_error(e: u32, n: usize) -> u64
    requires { n ≤ 8 }
    ensures { result ≡ table_error e n }
{
    if 0 < e {
        Record::HALF_ENTRY * n as u64
    } else {
        0
    }
}

// The error of the axis in row i, from 0.
pub(crate) fn error_of(a: &[[i64; 8]; 8], n: usize, e: u32, m: u64, i: usize) -> u64
    requires { (i < n) × (n ≤ 8) × (m ≤ turn_limit) × Small a.now }
    ensures { result ≡ error_of n e (at a.now) m i }
{
    let mut sum = 0;
    for j in 0..n {
        sum += off_diagonal(a, i, j);
    }
    sum + (7 * m + 1) / 2 + table_error(e, n)
}
