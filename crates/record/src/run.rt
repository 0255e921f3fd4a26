// The sweeps of a run, and how they end.
ghost use Rattle.std.specs.Prelude.{◌≡◌, ◌≤◌};
ghost use Rattle.ledger.specs.Pairs.{cyclic};
ghost use Rattle.record.specs.Loose.{loose_of};
ghost use Rattle.record.specs.Run.{no_pair};
ghost use Rattle.record.specs.inner.Running.{WorkRan, WorkRunnable};
ghost use Rattle.turn.specs.Turn.{at};

use crate::work::Work;
use crate::{Record, query};
use ledger::Order;

// The bench that a run's calls on its own record name.
pub const OWN_BENCH: usize = 1;

// How a run ends.
#[derive(Clone, Copy, Debug, PartialEq, Eq)]
pub enum Outcome {
    Settled,
    Still,
    Spent,
}

// A run: its outcome, how many sweeps were run, and what they leave: the record, or within this crate the state that holds the matrix. Its rows at
// work are lent, and so tell themselves what is left.
#[derive(Clone, Copy)]
pub struct Ended<S> {
    pub outcome: Outcome,
    pub sweeps: u64,
    pub last: S,
}

pub type Run = Ended<Record>;

impl Work {
    // Whether a loose-pair call answers none.
    fn is_settled(&self, tolerance: u64) -> bool
        requires { self.now.n ≤ 8 }
        ensures { result ≡ no_pair (loose_of (at self.now.matrix) tolerance (cyclic self.now.n)) }
    {
        query::loose_pair_of(&self.matrix, self.n, tolerance).is_none()
    }

    // Sweeps until no pair is loose, a sweep makes no turn, or the limit is reached. Sixteen sweeps make at most 448 turns, so that none is refused.
    pub(crate) fn run(&mut self, limit: u64, tolerance: u64) -> Ended<()>
        requires { WorkRunnable self.old limit tolerance }
        ensures { WorkRan self.old limit tolerance result self.new }
    {
        let mut sweeps = 0;
        let mut idle = false;
        // No plainer: a `for` over the sweeps would need an `unreachable!` behind it, since its last round is left by the limit.
        let outcome = loop {
            if self.is_settled(tolerance) {
                break Outcome::Settled;
            }
            if idle {
                break Outcome::Still;
            }
            if sweeps == limit {
                break Outcome::Spent;
            }
            sweeps += 1;
            let m = self.m;
            self.sweep_in(Order::Cyclic);
            idle = self.m == m;
        };
        Ended {
            outcome,
            sweeps,
            last: (),
        }
    }
}
