// A run of document 01: a fresh record of its own, a load, and the sweeps; of a matrix, or of a table made from readings. Its bench is 1.
#![tactic(auto)]

pub mod word;

ghost use Rattle.run.specs.Run.{Allowed, Runs, RunsTable};

use record::run::OWN_BENCH;
use record::{Record, Run};

pub fn run(n: usize, numbers: &[i64], limit: u64, tolerance: u64) -> Run
    requires { Allowed n numbers.now limit tolerance }
    ensures { Runs n numbers.now limit tolerance result }
{
    let fresh = Record::new();
    let loaded = fresh.load(OWN_BENCH, n, numbers);
    let r = loaded.next;
    r.run(limit, tolerance)
}

// Of a table: its entries, and the shift e, which the record remembers. No plainer as one with `run`: a matrix is loaded by the load call, which
// judges it, and a table is not.
#[tactic(auto, using(crate::proofs::ProvedBy::run_table), unfolding(record::specs::Solver::loaded_solver, crate::specs::Run::table_run))]
pub fn run_table(n: usize, numbers: &[i64], e: u32, limit: u64, tolerance: u64) -> Run
    requires { Allowed n numbers.now limit tolerance }
    ensures { RunsTable n numbers.now e limit tolerance result }
{
    let fresh = Record::new();
    let loaded = fresh.load_table(n, numbers, e);
    loaded.run(limit, tolerance)
}
