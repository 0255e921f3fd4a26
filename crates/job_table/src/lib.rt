// The table of a job: S, e and the entries of its samples.
#![tactic(auto)]

pub mod lines;
mod rows;

ghost use Rattle.std.specs.Prelude.{◌≡◌};
ghost use Rattle.job.specs.Held.{job_in};
ghost use Rattle.job_table.specs.JobTable.{table_for};

use job::Job;
use scatter::table::Table;

pub fn table_of(job: &Job) -> Table
    ensures { result ≡ table_for (job_in job.now) }
{
    scatter::table::table_of_readings(&job.samples())
}
