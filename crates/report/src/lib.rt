// Job text in, report or refusal out: document 01, 'Job text and report'.
#![tactic(auto)]

pub mod axes;
mod lines;
mod order;

ghost use Rattle.job.specs.Held.{job_in};
ghost use Rattle.job.specs.Job.{accepted};
ghost use Rattle.job.specs.Reply.{Answers, Replies, printed_of};
ghost use Rattle.text.specs.Put.{Put};
ghost use Rattle.report.specs.Done.{Ran, Reportable, ReportsRun, TableReportable, TableRunnable, run_of_table};
ghost use Rattle.report.specs.Report.{report_of, run_for};

use job::reply::put_reply;
use job::{Job, RefusedLine};
use lines::Lines;
use record::Run;
use refusal::Refusal;
use scatter::table::Table;

// The report of a run on the table of k samples. The length is known before the first byte is written, so a buffer that is too short stays as it
// is.
pub fn report_run(run: Run, k: usize, buf: &mut [u8]) -> Result<usize, Refusal>
    requires { Reportable run k }
    ensures { ReportsRun run k buf.old buf.new result }
{
    let last = run.last;
    let n = last.channels();
    let axes = axes::axes_numbers(last);
    let lines = Lines {
        head: [
            n as i64,
            k as i64,
            i64::from(last.shift()),
            run.sweeps as i64,
            last.turns() as i64,
        ],
        outcome: run.outcome,
        axes: order::ordered(&axes, n),
        n,
    };
    if buf.len() < lines.length() {
        return Err(Refusal::ShortBuffer);
    }
    Ok(lines.put(buf))
}

// The run on a table's first n × n entries and its e.
fn run_of_table(n: usize, limit: u64, tolerance: u64, table: Table) -> Run
    requires { TableRunnable n limit tolerance table }
    ensures { Ran (run_of_table n limit tolerance table) result }
{
    run::run_table(n, &table.entries[..n * n], table.e, limit, tolerance)
}

// The report of a table of k samples of n channels, by the run on its entries.
pub fn report_table(
    n: usize,
    k: usize,
    limit: u64,
    tolerance: u64,
    table: Table,
    buf: &mut [u8],
) -> Result<usize, Refusal>
    requires { TableReportable n k limit tolerance table }
    ensures { ReportsRun (run_of_table n limit tolerance table) k buf.old buf.new result }
{
    let run = run_of_table(n, limit, tolerance, table);
    report_run(run, k, buf)
}

// The run of a job, on its table.
pub fn run_of_job(job: &Job) -> Run
    ensures { Ran (run_for (job_in job.now)) result }
{
    let table = job_table::table_of(job);
    run_of_table(job.n, job.limit, job.tolerance, table)
}

fn report_job(job: &Job, buf: &mut [u8]) -> Result<usize, RefusedLine>
    ensures { Answers report_of (accepted (job_in job.now)) buf.old buf.new result }
{
    let table = job_table::table_of(job);
    let length = report_table(job.n, job.k, job.limit, job.tolerance, table, buf)?;
    Ok(length)
}

pub fn report(text: &[u8], buf: &mut [u8]) -> Result<usize, RefusedLine>
    ensures { Replies report_of text.now buf.old buf.new result }
{
    let job = job::read(text)?;
    report_job(&job, buf)
}

// What the program prints, at the front of the buffer: the report, or the line of the refusal.
pub fn answer(text: &[u8], out: &mut [u8; 2048]) -> usize
    ensures { Put (printed_of report_of text.now) 0 out.old out.new result }
{
    let reply = report(text, out);
    put_reply(reply, out)
}
