// The numbers of the `A` lines, as the record's axis call answers them.
ghost use Rattle.std.specs.Prelude.{◌≡◌, ◌∷◌, ◌≤◌};
ghost use Rattle.ledger.specs.Call.{axis};
ghost use Rattle.record.specs.Kept.{Kept};
ghost use Rattle.record.specs.Record.{answer_to, row_to};
ghost use Rattle.record.specs.Run.{own};
ghost use Rattle.record.specs.declared.query.Answer.TheVariants.{Axis};
ghost use Rattle.report.specs.inner.AxisNumbers.{axes_numbers, axis_numbers};

use record::run::OWN_BENCH;
use record::{Answer, Record};

// Three numbers, and a row after them.
fn numbers_of(number: i64, entry: i64, error: i64, row: [i64; 8]) -> [i64; 11]
    ensures { result ≡ number ∷ entry ∷ error ∷ row }
{
    let mut numbers = [0; 11];
    numbers[..3].copy_from_slice(&[number, entry, error]);
    numbers[3..].copy_from_slice(&row);
    numbers
}

// What the axis call answers of an axis that there is: a_ii, r_i and row i of v.
#[derive(Clone, Copy)]
pub struct OwnAxis {
    pub entry: i64,
    pub error: u64,
    pub row: [i64; 8],
}

pub fn own_axis(r: Record, i: usize) -> OwnAxis
    requires { Kept r × (1 ≤ i) × (i ≤ r.solver.n) }
    ensures { (Axis result.entry result.error ≡ answer_to r (own (axis i))) × (result.row ≡ row_to r (own (axis i))) }
{
    let answered = r.axis(OWN_BENCH, i).answer;
    let row = answered.row;
    let Answer::Axis { entry, error } = answered.value else {
        return OwnAxis {
            entry: 0,
            error: 0,
            row,
        };
    };
    OwnAxis { entry, error, row }
}

// i, a_ii, r_i and row i of v.
fn axis_numbers(r: Record, i: usize) -> [i64; 11]
    requires { Kept r × (1 ≤ i) × (i ≤ r.solver.n) }
    ensures { result ≡ axis_numbers r i }
{
    let axis = own_axis(r, i);
    numbers_of(i as i64, axis.entry, axis.error as i64, axis.row)
}

// Those of axes 1 to n.
pub fn axes_numbers(r: Record) -> [[i64; 11]; 8]
    requires { Kept r }
    ensures { result ≡ axes_numbers r }
{
    let n = r.channels();
    let mut numbers = [[0i64; 11]; 8];
    for i in 0..n {
        numbers[i] = axis_numbers(r, i + 1);
    }
    numbers
}
