// The numbers of a table's lines: the channel and its exact sums.
ghost use Rattle.std.specs.Prelude.{◌≡◌, ◌∷◌, ◌++◌, [], ◌+◌, ◌≤◌, ◌<◌, pos, get_or};
ghost use Rattle.integer.specs.Tabulate.{tabulate};
ghost use Rattle.job_table.specs.inner.Rows.{table_row, table_rows};

use std::array;

// A number, eight numbers from a place on, and two that no line has.
fn row_from(number: usize, sums: &[i64; 64], at: usize) -> [i64; 11]
    requires { (number ≤ 8) × (at ≤ 56) }
    ensures { result ≡ pos number ∷ (tabulate 8 (λ j. get_or sums.now (at + j) (pos 0)) ++ (pos 0 ∷ pos 0 ∷ [])) }
{
    let mut row = [0; 11];
    row[0] = number as i64;
    row[1..9].copy_from_slice(&sums[at..at + 8]);
    row
}

fn row_of(n: usize, sums: &[i64; 64], i: usize) -> [i64; 11]
    requires { (n ≤ 8) × (i < 8) }
    ensures { result ≡ table_row n sums.now i }
{
    row_from(i + 1, sums, i * n)
}

// Those of the first n channels are the table's.
pub(crate) fn rows_of(n: usize, sums: &[i64; 64]) -> [[i64; 11]; 8]
    requires { n ≤ 8 }
    ensures { result ≡ table_rows n sums.now }
{
    array::from_fn(
        |i|
            requires { (n ≤ 8) × (i < 8) }
            ensures { result ≡ table_row n sums.entry.now i }
        { row_of(n, sums, i) },
    )
}
