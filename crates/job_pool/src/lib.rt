// Two jobs pooled: document 02, W6. Their samples are put together nowhere: sums are added.
#![tactic(auto)]

pub mod arguments;
mod check;
mod line;
pub mod texts;

ghost use Rattle.std.specs.Prelude.{◌≡◌};
ghost use Rattle.readings.specs.Samples.{samples};
ghost use Rattle.sums.specs.Combined.{plus_of};
ghost use Rattle.sums.specs.Sums.{sums_of};
ghost use Rattle.scatter.specs.BySums.{scatter_by_sums};
ghost use Rattle.scatter.specs.Table.{table_from};
ghost use Rattle.job_text.specs.JobText.{job_with};
ghost use Rattle.job_pool.specs.Writer.{WritesPooled};
ghost use Rattle.job_pool.specs.inner.Readings.{BothReadings};

use check::check_pool;
use readings::Samples;
use refusal::Refusal;
use report::report_table;
use scatter::table::Table;

// By the numbers of samples, channel sums and cross sums of both.
fn pooled_table(first: &Samples, second: &Samples) -> Table
    requires { BothReadings first.now.n first.now.dilutions.now first.now.counts.now
        second.now.n second.now.dilutions.now second.now.counts.now }
    ensures { result ≡ table_from (scatter_by_sums first.now.n
        (plus_of (sums_of (samples first.now.n first.now.dilutions.now first.now.counts.now))
        (sums_of (samples second.now.n second.now.dilutions.now second.now.counts.now)))) }
{
    let sums1 = sums::sums_of(first);
    let sums2 = sums::sums_of(second);
    scatter::table::table_of(first.n, sums::plus(sums1, sums2))
}

// The report of two jobs pooled, each handed over as to W1's writer. The sweep limit and the tolerance are the first one's.
pub fn write_pooled(
    first: &Samples,
    limit1: u64,
    tolerance1: u64,
    second: &Samples,
    limit2: u64,
    tolerance2: u64,
    buf: &mut [u8],
) -> Result<usize, Refusal>
    ensures { WritesPooled (job_with first.now.n limit1 tolerance1 first.now.dilutions.now first.now.counts.now)
        (job_with second.now.n limit2 tolerance2 second.now.dilutions.now second.now.counts.now) buf.old buf.new result }
{
    check_pool(first, limit1, tolerance1, second, limit2, tolerance2)?;
    let table = pooled_table(first, second);
    let k = first.dilutions.len() + second.dilutions.len();
    report_table(first.n, k, limit1, tolerance1, table, buf)
}
