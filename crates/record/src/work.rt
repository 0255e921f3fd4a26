// A matrix at work: the matrix and axes of a state in rows, and the pairs chosen and turned on them, one or those of a sweep.
ghost use Rattle.std.specs.Prelude.{◌≡◌, ◌<◌, ◌≤◌, ◌+◌, ◌-◌, ◌*◌, ◌/◌};
ghost use Rattle.ledger.specs.Order.{pairs_in};
ghost use Rattle.limits.specs.Limits.{turn_limit};
ghost use Rattle.record.specs.Work.{chosen, work_pair, work_pairs};
ghost use Rattle.record.specs.Worked.{Ready};
ghost use Rattle.record.specs.inner.Orders.{Within, pair_in, work_place};
ghost use Rattle.turn.specs.Size.{Small};

use crate::sweep;
use choice::Turn;
use ledger::Order;
use turn::pair::Rotation;

// The kept matrix of n channels and its axes, 8 rows of 8, and m.
#[derive(Clone, Copy)]
pub struct Work {
    pub(crate) n: usize,
    pub(crate) matrix: [[i64; 8]; 8],
    pub(crate) axes: [[i64; 8]; 8],
    pub(crate) m: u64,
}

impl Work {
    // The choice for the pair p < q, in rows and columns from 0.
    fn choice(&self, p: usize, q: usize) -> Option<Turn>
        requires { (p < 8) × (q < 8) × Small self.now.matrix }
        ensures { result ≡ chosen self.now (record { p = p; q = q }) }
    {
        choice::choose_turn(self.matrix[p][p], self.matrix[q][q], self.matrix[p][q])
    }

    // The pair p < q chosen, and turned if a turn was chosen.
    pub(crate) fn pair(&mut self, p: usize, q: usize)
        requires { (p < q) × (q < self.old.n) × Ready self.old }
        ensures { self.new ≡ work_pair self.old (record { p = p; q = q }) }
    {
        let Some(turn) = self.choice(p, q) else {
            return;
        };
        let r = Rotation::of(turn.l, turn.minus);
        turn::turn_axes(&mut self.axes, self.n, r, p, q);
        self.matrix = turn::turn_matrix(self.matrix, self.n, r, p, q);
        self.m += 1;
    }

    // The pair in a row and a column of a sweep worked, or skipped where it names a number above n.
    #[tactic(auto, unfolding(crate::specs::inner::Orders::work_place))]
    fn place(&mut self, order: Order, row: usize, column: usize)
        requires { Within order self.old.n row column × Ready self.old }
        ensures { self.new ≡ work_place self.old (pair_in order self.old.n row column) }
    {
        let place = sweep::place_of(order, self.n, row, column);
        if self.n <= place.q {
            return;
        }
        self.pair(place.p, place.q);
    }

    // The pairs of a sweep, each chosen on the matrix as it then stands.
    pub(crate) fn sweep_in(&mut self, order: Order)
        requires { (1 ≤ self.old.n) × (self.old.m + self.old.n * (self.old.n - 1) / 2 ≤ turn_limit) × Ready self.old }
        ensures { self.new ≡ work_pairs self.old (pairs_in order self.old.n) }
    {
        let rows = sweep::rows_of(order, self.n);
        let columns = sweep::columns_of(order, self.n);
        for row in 0..rows {
            for column in sweep::first_of(order, row)..columns {
                self.place(order, row, column);
            }
        }
    }
}
