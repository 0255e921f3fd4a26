// The state that holds the matrix, with no count: what each call answers, and what it leaves of matrix and axes.
ghost use Rattle.ledger.specs.Call.{axis, load, load_samples, loose_pair, sweep_in, turn};
ghost use Rattle.ledger.specs.Refusal.{refusal_of};
ghost use Rattle.record.specs.declared.query.Answer.TheVariants.{Refused};
ghost use Rattle.record.specs.Kept.{KeptSolver};
ghost use Rattle.record.specs.Solver.{answer_of, axis_of, work_of, worked_of};
ghost use Rattle.record.specs.inner.Solved.{Solved, SolverLoaded, SolverRan, SolverRunnable, Unloaded};
ghost use Rattle.std.specs.Prelude.{◌≡◌};

use crate::query::Answer;
use crate::run::Ended;
use crate::work::Work;
use crate::{AxisAnswer, Step, load, query, rows, sweep};
use ledger::Order;
use readings::Samples;
use refusal::Refusal;

// Channels n, 0 where there is no matrix; turns made m; the shift e of a table made from readings, else 0; the kept matrix and axes, row after
// row, 8 to a row.
// Document 02 on e: 'which is 0 for a plain load'. No plainer with n in an Option: all of its definitions, refusals too, read n as a number.
// No plainer with `KeptSolver` as the type's own fact: definitions as `loaded_solver` write states down, and would have to write its proof with each.
#[derive(Clone, Copy)]
pub struct Solver {
    n: usize,
    m: u64,
    e: u32,
    a: [i64; 64],
    v: [i64; 64],
}

// A call's answer, and the state that it leaves.
type SolverStep = Step<Answer, Solver>;

impl Solver {
    // No matrix.
    pub(crate) fn new() -> Self
        ensures { Unloaded result }
    {
        Solver {
            n: 0,
            m: 0,
            e: 0,
            a: [0; 64],
            v: [0; 64],
        }
    }

    pub(crate) fn channels(self) -> usize
        ensures { result ≡ self.n }
    {
        self.n
    }

    pub(crate) fn turns(self) -> u64
        ensures { result ≡ self.m }
    {
        self.m
    }

    pub(crate) fn shift(self) -> u32
        ensures { result ≡ self.e }
    {
        self.e
    }

    // The load of a table, its entries and its e.
    pub(crate) fn of_table(n: usize, numbers: &[i64], e: u32) -> Self
        requires { refusal_of 0 0 (load n numbers.now) ≡ 0 }
        ensures { SolverLoaded n numbers.now e result }
    {
        let mut matrix = [[0i64; 8]; 8];
        let mut axes = [[0i64; 8]; 8];
        load::load_matrix(&mut matrix, n, numbers);
        load::load_axes(&mut axes, n);
        Solver {
            n,
            m: 0,
            e,
            a: rows::packed(&matrix),
            v: rows::packed(&axes),
        }
    }

    pub(crate) fn load(self, n: usize, numbers: &[i64]) -> SolverStep
        requires { KeptSolver self }
        ensures { Solved self (load n numbers.now) result.answer result.next }
    {
        if let Err(refusal) = load::check_load(n, numbers) {
            return self.refuse(refusal);
        }
        Step {
            answer: Answer::Loaded,
            next: Solver::of_table(n, numbers, 0),
        }
    }

    // Document 02, W5: the second load, of the table of samples.
    pub(crate) fn load_samples(self, samples: &Samples) -> SolverStep
        requires { KeptSolver self }
        ensures { Solved self (load_samples samples.now.n samples.now.dilutions.now samples.now.counts.now) result.answer result.next }
    {
        if let Err(refusal) = samples.check() {
            return self.refuse(refusal);
        }
        let n = samples.n;
        let table = scatter::table::table_of_readings(samples);
        Step {
            answer: Answer::SamplesLoaded(table.e),
            next: Solver::of_table(n, &table.entries[..n * n], table.e),
        }
    }

    pub(crate) fn turn(self, p: usize, q: usize) -> SolverStep
        requires { KeptSolver self }
        ensures { Solved self (turn p q) result.answer result.next }
    {
        if let Err(refusal) = sweep::check_turn(self.n, self.m, p, q) {
            return self.refuse(refusal);
        }
        let mut work = self.work();
        work.pair(p - 1, q - 1);
        Step {
            answer: Answer::Turned(self.m < work.m),
            next: self.with_work(&work),
        }
    }

    // Document 02, W10: in either order.
    pub(crate) fn sweep_in(self, order: Order) -> SolverStep
        requires { KeptSolver self }
        ensures { Solved self (sweep_in order) result.answer result.next }
    {
        if let Err(refusal) = sweep::check_sweep(self.n, self.m) {
            return self.refuse(refusal);
        }
        let mut work = self.work();
        work.sweep_in(order);
        Step {
            answer: sweep::swept(order, work.m - self.m),
            next: self.with_work(&work),
        }
    }

    // The queries leave the state as it is.
    pub(crate) fn loose_pair(self, t: u64) -> Answer
        requires { KeptSolver self }
        ensures { result ≡ answer_of self (loose_pair t) }
    {
        if let Err(refusal) = query::check_loose_pair(self.n, t) {
            return Answer::Refused(refusal);
        }
        query::pair_answer(query::loose_pair_of(&rows::unpacked(&self.a), self.n, t))
    }

    pub(crate) fn axis(self, i: usize) -> AxisAnswer
        requires { KeptSolver self }
        ensures { (result.value ≡ answer_of self (axis i)) × (result.row ≡ axis_of self i) }
    {
        if let Err(refusal) = query::check_axis(self.n, i) {
            return AxisAnswer::from(Answer::Refused(refusal));
        }
        let matrix = rows::unpacked(&self.a);
        let at = i - 1;
        let entry = matrix[at][at];
        let error = query::error_of(&matrix, self.n, self.e, self.m, at);
        AxisAnswer {
            value: Answer::Axis { entry, error },
            row: rows::row(&self.v, at),
        }
    }

    // The loose-pair and sweep calls of a run, one after the other, unpacked and packed once for all of them.
    pub(crate) fn run(self, limit: u64, tolerance: u64) -> Ended<Solver>
        requires { SolverRunnable self limit tolerance }
        ensures { SolverRan self limit tolerance result }
    {
        let mut work = self.work();
        let ended = work.run(limit, tolerance);
        Ended {
            outcome: ended.outcome,
            sweeps: ended.sweeps,
            last: self.with_work(&work),
        }
    }

    // What a refused call answers and leaves.
    // No plainer with the check and this in one method over a closure: its contract would have to tell the closure that the check was passed.
    fn refuse(self, refusal: Refusal) -> SolverStep
        ensures { (result.answer ≡ Refused refusal) × (result.next ≡ self) }
    {
        Step {
            answer: Answer::Refused(refusal),
            next: self,
        }
    }

    // The matrix and axes in rows, to be worked on.
    #[tactic(auto, unfolding(crate::specs::Solver::work_of))]
    fn work(&self) -> Work
        ensures { result ≡ work_of self.now }
    {
        Work {
            n: self.n,
            matrix: rows::unpacked(&self.a),
            axes: rows::unpacked(&self.v),
            m: self.m,
        }
    }

    // The state with the matrix and axes of some turns, and m after them.
    #[tactic(auto, unfolding(crate::specs::Solver::worked_of))]
    fn with_work(self, work: &Work) -> Self
        ensures { result ≡ worked_of self work.now }
    {
        Solver {
            n: self.n,
            m: work.m,
            e: self.e,
            a: rows::packed(&work.matrix),
            v: rows::packed(&work.axes),
        }
    }
}
