// The record and its calls: the state that holds one matrix with its axes and the turns made of it, and a count of refused calls for each bench.
#![tactic(auto)]

ghost use Rattle.ledger.specs.Bench.{by, is_bench};
ghost use Rattle.ledger.specs.Call.{load, load_samples, sweep, sweep_in, tournament_sweep, turn};
ghost use Rattle.ledger.specs.Refusal.{refusal_of};
ghost use Rattle.record.specs.Done.{AxisDone, Done, Fresh, GivesCounts, LooseDone, TableLoaded};
ghost use Rattle.record.specs.Kept.{Kept};
ghost use Rattle.record.specs.Record.{counted, raised};
ghost use Rattle.record.specs.RunDone.{RunDone, Runnable};
ghost use Rattle.record.specs.declared.Step.{Step};
ghost use Rattle.record.specs.declared.query.Answer.{Answer};
ghost use Rattle.record.specs.declared.query.Answer.TheVariants.{Refused};
ghost use Rattle.record.specs.declared.solver.Solver.{Solver};
ghost use Rattle.record.specs.inner.Named.{counts_left, left_with};
ghost use Rattle.refusal.specs.Refusal.{numbered};
ghost use Rattle.std.specs.Prelude.{false, pos, replicate, true, ◌≡◌};

use ledger::Order;
use readings::Samples;
use refusal::Refusal;

pub mod lent;
pub mod load;
pub mod query;
mod rows;
pub mod run;
pub mod solver;
pub mod sweep;
mod work;

pub use query::Answer;
use run::Ended;
pub use run::{Outcome, Run};
use solver::Solver;

// The state that holds the matrix, and the refused calls of bench 1, 2, 3 and 4.
// No plainer with `Kept` as the type's own fact: definitions as `record_after` write records down, and would have to write its proof with each.
#[derive(Clone, Copy)]
pub struct Record {
    solver: Solver,
    refused: [u32; 4],
}

// A call's answer, and what it leaves: the record, or within this crate the state that holds the matrix.
#[derive(Clone, Copy)]
pub struct Step<A = Answer, S = Record> {
    pub answer: A,
    pub next: S,
}

// The answer of an axis call, with row i of v; the row of a refused call is 0.
#[derive(Clone, Copy)]
pub struct AxisAnswer {
    pub value: Answer,
    pub row: [i64; 8],
}

// An answer that has no row.
impl From<Answer> for AxisAnswer {
    ghost from_gives = { λ value answer. answer ≡ record { value = value; row = replicate 8 (pos 0) } };

    fn from(value: Answer) -> AxisAnswer {
        let row = [0i64; 8];
        AxisAnswer { value, row }
    }
}

pub type AxisStep = Step<AxisAnswer>;

// One refused call more; the count stops at its limit.
#[tactic(auto, unfolding(crate::specs::Record::counted))]
fn one_more(refused: u32) -> u32
    ensures { result ≡ counted refused }
{
    if refused < Record::REFUSED_LIMIT {
        refused + 1
    } else {
        refused
    }
}

// One refused call more of a bench, and of no other.
fn raise(mut counts: [u32; 4], bench: usize) -> [u32; 4]
    requires { is_bench bench ≡ true }
    ensures { result ≡ raised bench counts }
{
    let at = bench - 1;
    counts[at] = one_more(counts[at]);
    counts
}

// Tried as `(1..=Record::BENCHES).contains(&bench)`: the proof didn't close.
fn is_bench(bench: usize) -> bool
    ensures { result ≡ is_bench bench }
{
    1 <= bench && bench <= Record::BENCHES
}

// The counts that a call of a bench leaves: 'A refused call raises its own bench's count and no other.'
#[tactic(auto, unfolding(crate::specs::inner::Named::counts_left))]
fn counts_after(counts: [u32; 4], bench: usize, answer: Answer) -> [u32; 4]
    requires { is_bench bench ≡ true }
    ensures { result ≡ counts_left counts bench answer }
{
    if query::is_refused(answer) {
        return raise(counts, bench);
    }
    counts
}

impl Record {
    // The limits that the calls keep to.
    pub const LEAST_CHANNELS: usize = limits::LEAST_CHANNELS;

    pub const MOST_CHANNELS: usize = limits::MOST_CHANNELS;

    pub const ENTRY_LIMIT: i64 = limits::ENTRY_LIMIT as i64;

    pub const TOLERANCE_LIMIT: u64 = limits::TOLERANCE_LIMIT;

    pub const TURN_LIMIT: u64 = limits::TURN_LIMIT;

    pub const UNITS: i64 = limits::UNITS;

    pub const HALF_ENTRY: u64 = limits::HALF_ENTRY;

    pub const WHOLE: i64 = limits::WHOLE;

    pub const BENCHES: usize = limits::BENCHES;

    pub const REFUSED_LIMIT: u32 = limits::REFUSED_LIMIT;

    // A fresh record holds no matrix, and for each bench a count of 0 refused calls.
    #[tactic(auto, unfolding(crate::specs::Record::fresh))]
    pub fn new() -> Self
        ensures { Fresh result }
    {
        Record {
            solver: Solver::new(),
            refused: [0; 4],
        }
    }

    // How many calls of bench 1, 2, 3 and 4 were refused.
    #[tactic(auto, unfolding(crate::specs::Record::refused_by))]
    pub fn refused_calls(self) -> [u32; 4]
        ensures { GivesCounts self result }
    {
        self.refused
    }

    // How many channels the matrix has, 0 where none is loaded.
    pub fn channels(self) -> usize
        ensures { result ≡ self.solver.n }
    {
        self.solver.channels()
    }

    // How many turns were made of the matrix.
    pub fn turns(self) -> u64
        ensures { result ≡ self.solver.m }
    {
        self.solver.turns()
    }

    // The shift e of the table that was loaded, 0 for a plain load.
    pub fn shift(self) -> u32
        ensures { result ≡ self.solver.e }
    {
        self.solver.shift()
    }

    pub fn load(self, bench: usize, n: usize, numbers: &[i64]) -> Step
        requires { Kept self }
        ensures { Done self (by bench (load n numbers.now)) result.answer result.next }
    {
        self.named(bench, |solver| solver.load(n, numbers))
    }

    // Document 02, W5: the second load, of the table of samples.
    pub fn load_samples(self, bench: usize, samples: &Samples) -> Step
        requires { Kept self }
        ensures { Done self (by bench (load_samples samples.now.n samples.now.dilutions.now samples.now.counts.now)) result.answer result.next }
    {
        // Tried as it is: a closure that captures a struct with references in it tells its caller nothing of what its call ensures.
        let (n, dilutions, counts) = (samples.n, samples.dilutions, samples.counts);
        self.named(
            bench,
            |solver| solver.load_samples(&Samples {
                n,
                dilutions,
                counts,
            }),
        )
    }

    // The load of a table, its entries and its e. It is no call and names no bench: a run, whose record is its own, begins with it.
    pub fn load_table(self, n: usize, numbers: &[i64], e: u32) -> Self
        requires { Kept self × (refusal_of 0 0 (load n numbers.now) ≡ 0) }
        ensures { TableLoaded self n numbers.now e result }
    {
        // Tried without it: the borrow checker does not cover an array field that is made part of a literal here.
        let refused = self.refused;
        Record {
            solver: Solver::of_table(n, numbers, e),
            refused,
        }
    }

    pub fn turn(self, bench: usize, p: usize, q: usize) -> Step
        requires { Kept self }
        ensures { Done self (by bench (turn p q)) result.answer result.next }
    {
        self.named(bench, |solver| solver.turn(p, q))
    }

    pub fn sweep(self, bench: usize) -> Step
        requires { Kept self }
        ensures { Done self (by bench sweep) result.answer result.next }
    {
        self.sweep_in(bench, Order::Cyclic)
    }

    // Document 02, W10: the sweep in tournament order.
    pub fn tournament_sweep(self, bench: usize) -> Step
        requires { Kept self }
        ensures { Done self (by bench tournament_sweep) result.answer result.next }
    {
        self.sweep_in(bench, Order::Tournament)
    }

    fn sweep_in(self, bench: usize, order: Order) -> Step
        requires { Kept self }
        ensures { Done self (by bench (sweep_in order)) result.answer result.next }
    {
        self.named(bench, |solver| solver.sweep_in(order))
    }

    pub fn loose_pair(self, bench: usize, t: u64) -> Step
        requires { Kept self }
        ensures { LooseDone self bench t result.answer result.next }
    {
        self.named(
            bench,
            |solver| Step {
                answer: solver.loose_pair(t),
                next: solver,
            },
        )
    }

    // Inlined, since who asks only for the answer would else pay for a copy of the record on the way in and on the way out.
    #[inline]
    pub fn axis(self, bench: usize, i: usize) -> AxisStep
        requires { Kept self }
        ensures { AxisDone self bench i result.answer result.next }
    {
        if !is_bench(bench) {
            return Step {
                answer: AxisAnswer::from(Answer::Refused(Refusal::NoSuchBench)),
                next: self,
            };
        }
        let answer = self.solver.axis(i);
        Step {
            answer,
            next: self.left(bench, answer.value, self.solver),
        }
    }

    // The loose-pair and sweep calls of a run, of bench 1, one after the other.
    pub fn run(self, limit: u64, tolerance: u64) -> Run
        requires { Runnable self limit tolerance }
        ensures { RunDone self limit tolerance result }
    {
        let ended = self.solver.run(limit, tolerance);
        // As in `load_table`.
        let refused = self.refused;
        Ended {
            outcome: ended.outcome,
            sweeps: ended.sweeps,
            last: Record {
                solver: ended.last,
                refused,
            },
        }
    }

    // What a call of a bench answers and leaves, by what it does to the state. Document 02, W8: 'A bench outside 1 to 4 gives 15, tried before
    // everything else, and raises no count.' An axis call's answer has a row, and so is no Answer.
    // Always inlined, and so first of all: inlined later, a call copied the record once more.
    #[inline(always)]
    fn named<F: FnOnce(Solver) -> Step<Answer, Solver>>(self, bench: usize, call: F) -> Step
        requires { F.pre call self.solver }
        ensures outside { is_bench bench ≡ false → (result.answer ≡ Refused (numbered 15)) × (result.next ≡ self) }
        ensures of_bench { is_bench bench ≡ true → (done : Step Answer Solver) × F.post call self.solver done × (result.answer ≡ done.answer)
            × (result.next ≡ left_with self.refused bench done.answer done.next) }
    {
        if !is_bench(bench) {
            return Step {
                answer: Answer::Refused(Refusal::NoSuchBench),
                next: self,
            };
        }
        let done = call(self.solver);
        Step {
            answer: done.answer,
            next: self.left(bench, done.answer, done.next),
        }
    }

    // The record that a call of one of the four benches leaves.
    fn left(self, bench: usize, answer: Answer, solver: Solver) -> Self
        requires { is_bench bench ≡ true }
        ensures { result ≡ left_with self.refused bench answer solver }
    {
        Record {
            solver,
            refused: counts_after(self.refused, bench, answer),
        }
    }
}
