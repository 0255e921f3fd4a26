// Document 01, 'The bench keeps one record through the day': the calls on a record lent by `&mut`. Each answers as the call by value does,
// and leaves that call's record.
ghost use Rattle.ledger.specs.Bench.{by};
ghost use Rattle.ledger.specs.Call.{load, load_samples, sweep, tournament_sweep, turn};
ghost use Rattle.record.specs.Done.{AxisDone, Done, LooseDone};
ghost use Rattle.record.specs.Kept.{Kept};

use crate::{Answer, AxisAnswer, Record, Step};
use readings::Samples;

// A call by value on a lent record.
fn lend<A, F: FnOnce(Record) -> Step<A>>(r: &mut Record, call: F) -> A
    requires { F.pre call r.old }
    ensures { F.post call r.old (record { answer = result; next = r.new }) }
{
    let done = call(*r);
    *r = done.next;
    done.answer
}

pub fn load(r: &mut Record, bench: usize, n: usize, numbers: &[i64]) -> Answer
    requires { Kept r.old }
    ensures { Done r.old (by bench (load n numbers.now)) result r.new }
{
    lend(r, |record| record.load(bench, n, numbers))
}

pub fn load_samples(r: &mut Record, bench: usize, samples: &Samples) -> Answer
    requires { Kept r.old }
    ensures { Done r.old (by bench (load_samples samples.now.n samples.now.dilutions.now samples.now.counts.now)) result r.new }
{
    // Tried with `lend`: a closure that captures a struct with references in it tells its caller nothing of what its call ensures.
    let done = r.load_samples(bench, samples);
    *r = done.next;
    done.answer
}

pub fn turn(r: &mut Record, bench: usize, p: usize, q: usize) -> Answer
    requires { Kept r.old }
    ensures { Done r.old (by bench (turn p q)) result r.new }
{
    lend(r, |record| record.turn(bench, p, q))
}

pub fn sweep(r: &mut Record, bench: usize) -> Answer
    requires { Kept r.old }
    ensures { Done r.old (by bench sweep) result r.new }
{
    lend(r, |record| record.sweep(bench))
}

pub fn tournament_sweep(r: &mut Record, bench: usize) -> Answer
    requires { Kept r.old }
    ensures { Done r.old (by bench tournament_sweep) result r.new }
{
    lend(r, |record| record.tournament_sweep(bench))
}

pub fn loose_pair(r: &mut Record, bench: usize, t: u64) -> Answer
    requires { Kept r.old }
    ensures { LooseDone r.old bench t result r.new }
{
    lend(r, |record| record.loose_pair(bench, t))
}

pub fn axis(r: &mut Record, bench: usize, i: usize) -> AxisAnswer
    requires { Kept r.old }
    ensures { AxisDone r.old bench i result r.new }
{
    lend(r, |record| record.axis(bench, i))
}
