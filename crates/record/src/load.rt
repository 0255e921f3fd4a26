// What a load checks, and what it puts into lent rows: the matrix and its axes.
ghost use Rattle.std.specs.Prelude.{◌≡◌, true, ◌*◌, ◌<◌, ◌≤◌, leb, pos, nat_abs, ◌*ℤ◌, length};
ghost use Rattle.integer.specs.Range.{all};
ghost use Rattle.ledger.specs.Call.{load};
ghost use Rattle.limits.specs.Limits.{entry_limit, units, whole};
ghost use Rattle.ledger.specs.Refusal.{equal, refusal_of, symmetric, entries_within};
ghost use Rattle.refusal.specs.Refusal.{judged};
ghost use Rattle.turn.specs.Turn.{square};
ghost use Rattle.turn.specs.InUse.{in_use};
ghost use Rattle.integer.specs.Matrix.{diagonal, matrix_of};
ghost use Rattle.record.specs.Blank.{blank};

use crate::Record;
use refusal::Refusal;

// Whether x is not beyond ±2,097,152.
fn is_within(x: i64) -> bool
    ensures { result ≡ leb (nat_abs x) entry_limit }
{
    integer::magnitude(x) <= Record::ENTRY_LIMIT as u64
}

fn all_within(numbers: &[i64]) -> bool
    ensures { result ≡ entries_within entry_limit numbers.now }
{
    numbers.iter().all(|x| is_within(*x))
}

// Whether row i of the n×n numbers is the mirror of column i, left of the diagonal.
fn row_mirrored(n: usize, numbers: &[i64], i: usize) -> bool
    requires { (i < n) × (n ≤ 8) × (length numbers.now ≡ n * n) }
    ensures { result ≡ all (λ j. equal (matrix_of n numbers.now i j) (matrix_of n numbers.now j i)) i }
{
    for j in 0..i {
        if numbers[i * n + j] != numbers[j * n + i] {
            return false;
        }
    }
    true
}

fn is_symmetric(n: usize, numbers: &[i64]) -> bool
    requires { (n ≤ 8) × (length numbers.now ≡ n * n) }
    ensures { result ≡ symmetric n (matrix_of n numbers.now) }
{
    for i in 0..n {
        if !row_mirrored(n, numbers, i) {
            return false;
        }
    }
    true
}

pub fn check_load(n: usize, numbers: &[i64]) -> Result<(), Refusal>
    ensures { result ≡ judged (refusal_of 0 0 (load n numbers.now)) (record {}) }
{
    if n < Record::LEAST_CHANNELS || Record::MOST_CHANNELS < n {
        return Err(Refusal::ChannelCount);
    }
    if numbers.len() != n * n {
        return Err(Refusal::ListLength);
    }
    if !all_within(numbers) {
        return Err(Refusal::EntryLimit);
    }
    if !is_symmetric(n, numbers) {
        return Err(Refusal::Unsymmetric);
    }
    Ok(())
}

// The kept entry in row i and column j.
fn loaded_entry(n: usize, numbers: &[i64], i: usize, j: usize) -> i64
    requires { (i < n) × (j < n) × (n ≤ 8) × (length numbers.now ≡ n * n) × (entries_within entry_limit numbers.now ≡ true) }
    ensures { result ≡ pos units *ℤ matrix_of n numbers.now i j }
{
    Record::UNITS * numbers[i * n + j]
}

// The n×n numbers in kept units, put into rows of 0.
pub(crate) fn load_matrix(matrix: &mut [[i64; 8]; 8], n: usize, numbers: &[i64])
    requires { (matrix.old ≡ blank) × (n ≤ 8) × (length numbers.now ≡ n * n) × (entries_within entry_limit numbers.now ≡ true) }
    ensures { matrix.new ≡ square (in_use n (λ i j. pos units *ℤ matrix_of n numbers.now i j)) }
{
    for i in 0..n {
        for j in 0..n {
            matrix[i][j] = loaded_entry(n, numbers, i, j);
        }
    }
}

// The diagonal of n channels, put into rows of 0.
pub(crate) fn load_axes(axes: &mut [[i64; 8]; 8], n: usize)
    requires { (axes.old ≡ blank) × (n ≤ 8) }
    ensures { axes.new ≡ square (in_use n (diagonal (pos whole))) }
{
    for i in 0..n {
        axes[i][i] = Record::WHOLE;
    }
}
