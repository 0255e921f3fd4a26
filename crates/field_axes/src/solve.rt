// A run and its axes: what refuses it, and the numbers.
ghost use Rattle.std.specs.Prelude.{◌≡◌, ◌+◌, ◌*◌, ◌≤◌, pos, length};
ghost use Rattle.refusal.specs.Refusal.{judged};
ghost use Rattle.text.specs.Put.{Put};
ghost use Rattle.text.specs.Rows.{Wide};
ghost use Rattle.field_axes.specs.Solution.{outcome_number, solution_of, solve_refusal};
ghost use Rattle.field_axes.specs.inner.Given.{Gives};
ghost use Rattle.field_axes.specs.inner.Solution.{used};
ghost use Rattle.field_axes.specs.inner.Solvable.{Solvable};

use record::Outcome;
use refusal::Refusal;

// Those of the load first, then the limits, then the buffer.
fn check_solve(
    n: usize,
    numbers: &[i64],
    limit: u64,
    tolerance: u64,
    size: usize,
) -> Result<(), Refusal>
    ensures { result ≡ judged (solve_refusal n numbers.now limit tolerance size) (record {}) }
{
    record::load::check_load(n, numbers)?;
    if limit < limits::LEAST_SWEEPS {
        return Err(Refusal::OutOfRange);
    }
    if limits::MOST_SWEEPS < limit {
        return Err(Refusal::OutOfRange);
    }
    if limits::TOLERANCE_LIMIT < tolerance {
        return Err(Refusal::OutOfRange);
    }
    if size < 3 + n * (n + 2) {
        return Err(Refusal::ShortBuffer);
    }
    Ok(())
}

// No plainer: a match, since the definition gives the number of each outcome, whatever their order is.
#[tactic(auto, unfolding(crate::specs::Solution::outcome_number))]
fn outcome_number(outcome: Outcome) -> i64
    ensures { result ≡ pos (outcome_number outcome) }
{
    match outcome {
        Outcome::Settled => 0,
        Outcome::Still => 1,
        Outcome::Spent => 2,
    }
}

// The numbers of axes 1 to n, each after the one before it.
// Tried without Wide, and the proof didn't close: each row's length is needed for all i at once, and of the type that "does not follow".
fn put_axes(n: usize, axes: &[[i64; 11]; 8], out: &mut [i64]) -> usize
    requires { (n ≤ 8) × Wide axes.now × (n * (n + 2) ≤ length out.old) }
    ensures { Put (used n axes.now n) 0 out.old out.new result }
{
    let end = n + 3;
    let mut at = 0;
    for numbers in &axes[..n] {
        at += text::numbers::put(&mut out[at..], &numbers[1..end]);
    }
    at
}

// The numbers of a run that is not refused.
fn put_solution(n: usize, numbers: &[i64], limit: u64, tolerance: u64, out: &mut [i64]) -> usize
    requires { Solvable n numbers.now limit tolerance (length out.old) }
    ensures { Put (solution_of n numbers.now limit tolerance) 0 out.old out.new result }
{
    let run = run::run(n, numbers, limit, tolerance);
    let axes = report::axes::axes_numbers(run.last);
    let head = [
        outcome_number(run.outcome),
        run.sweeps as i64,
        run.last.turns() as i64,
    ];
    let at = text::numbers::put(out, &head);
    at + put_axes(n, &axes, &mut out[at..])
}

// A run and its axes as numbers.
pub(crate) fn solve(
    n: usize,
    numbers: &[i64],
    limit: u64,
    tolerance: u64,
    out: &mut [i64],
) -> Result<usize, Refusal>
    ensures { Gives (solve_refusal n numbers.now limit tolerance (length out.old))
        (solution_of n numbers.now limit tolerance) out.old out.new result }
{
    check_solve(n, numbers, limit, tolerance, out.len())?;
    Ok(put_solution(n, numbers, limit, tolerance, out))
}
