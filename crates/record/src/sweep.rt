// Turns and sweeps: their refusals, what a sweep answers, and the order of its pairs.
ghost use Rattle.std.specs.Prelude.{◌≡◌, ◌<◌, ◌≤◌};
ghost use Rattle.ledger.specs.Call.{turn, sweep};
ghost use Rattle.ledger.specs.declared.Order.TheVariants.{Tournament};
ghost use Rattle.limits.specs.Limits.{turn_limit};
ghost use Rattle.ledger.specs.Refusal.{refusal_of};
ghost use Rattle.refusal.specs.Refusal.{judged};
ghost use Rattle.record.specs.inner.Orders.{columns_in, first_in, pair_in, rows_in};
ghost use Rattle.record.specs.Solver.{swept_in};

use crate::Record;
use crate::query::Answer;
use ledger::Order;
use refusal::Refusal;

pub(crate) fn check_turn(n: usize, m: u64, p: usize, q: usize) -> Result<(), Refusal>
    ensures { result ≡ judged (refusal_of n m (turn p q)) (record {}) }
{
    if n == 0 {
        return Err(Refusal::NoMatrix);
    }
    if p < 1 || q <= p || n < q {
        return Err(Refusal::OutsideMatrix);
    }
    if Record::TURN_LIMIT <= m {
        return Err(Refusal::TurnLimit);
    }
    Ok(())
}

// A sweep's refusal does not depend on its order.
pub(crate) fn check_sweep(n: usize, m: u64) -> Result<(), Refusal>
    requires { (n ≤ 8) × (m ≤ turn_limit) }
    ensures { result ≡ judged (refusal_of n m sweep) (record {}) }
{
    if n == 0 {
        return Err(Refusal::NoMatrix);
    }
    if Record::TURN_LIMIT < m + (n * (n - 1) / 2) as u64 {
        return Err(Refusal::TurnLimit);
    }
    Ok(())
}

// What a sweep answers that made so many turns.
pub(crate) fn swept(order: Order, made: u64) -> Answer
    ensures { result ≡ swept_in order made }
{
    match order {
        Order::Cyclic => Answer::Swept(made),
        Order::Tournament => Answer::TournamentSwept(made),
    }
}

// A pair p < q, in rows and columns from 0.
#[derive(Clone, Copy)]
pub struct Place {
    pub p: usize,
    pub q: usize,
}

// The rounds of a tournament of 2, 4, 6 and 8 numbers, those of 2 × h numbers from (h − 1)² on: p and q of each pair, left to right.
const ROUNDS: [[usize; 8]; 16] = [
    [0, 1, 0, 0, 0, 0, 0, 0],
    [0, 1, 2, 3, 0, 0, 0, 0],
    [0, 3, 1, 2, 0, 0, 0, 0],
    [0, 2, 1, 3, 0, 0, 0, 0],
    [0, 1, 2, 3, 4, 5, 0, 0],
    [0, 3, 1, 5, 2, 4, 0, 0],
    [0, 5, 3, 4, 1, 2, 0, 0],
    [0, 4, 2, 5, 1, 3, 0, 0],
    [0, 2, 1, 4, 3, 5, 0, 0],
    [0, 1, 2, 3, 4, 5, 6, 7],
    [0, 3, 1, 5, 2, 7, 4, 6],
    [0, 5, 3, 7, 1, 6, 2, 4],
    [0, 7, 5, 6, 3, 4, 1, 2],
    [0, 6, 4, 7, 2, 5, 1, 3],
    [0, 4, 2, 6, 1, 7, 3, 5],
    [0, 2, 1, 4, 3, 6, 5, 7],
];

// No plainer: both orders go through one loop, which asks its bounds and its pairs of the order here; a closure for each would have to carry what
// the loop's proof knows of a row and a column.

// How many rows a sweep has: those of the matrix, or rounds.
pub(crate) fn rows_of(order: Order, n: usize) -> usize
    requires { (1 ≤ n) × (n ≤ 8) }
    ensures { result ≡ rows_in order n }
{
    match order {
        Order::Cyclic => n,
        Order::Tournament => 2 * ((n + 1) / 2) - 1,
    }
}

// In which column a row begins.
pub(crate) fn first_of(order: Order, row: usize) -> usize
    requires { row < 8 }
    ensures { result ≡ first_in order row }
{
    match order {
        Order::Cyclic => row + 1,
        Order::Tournament => 0,
    }
}

// Before which column it ends.
pub(crate) fn columns_of(order: Order, n: usize) -> usize
    requires { n ≤ 8 }
    ensures { result ≡ columns_in order n }
{
    match order {
        Order::Cyclic => n,
        Order::Tournament => (n + 1) / 2,
    }
}

fn round_of(n: usize, row: usize, column: usize) -> Place
    requires { (1 ≤ n) × (n ≤ 8) × (row < rows_in Tournament n) × (column < columns_in Tournament n) }
    ensures { (result.p ≡ (pair_in Tournament n row column).p) × (result.q ≡ (pair_in Tournament n row column).q) }
{
    let half = (n + 1) / 2 - 1;
    let round = ROUNDS[half * half + row];
    Place {
        p: round[2 * column],
        q: round[2 * column + 1],
    }
}

// The pair in a row and a column.
pub(crate) fn place_of(order: Order, n: usize, row: usize, column: usize) -> Place
    requires { (1 ≤ n) × (n ≤ 8) × (row < rows_in order n) × (column < columns_in order n) }
    ensures { (result.p ≡ (pair_in order n row column).p) × (result.q ≡ (pair_in order n row column).q) }
{
    match order {
        Order::Cyclic => Place { p: row, q: column },
        Order::Tournament => round_of(n, row, column),
    }
}
