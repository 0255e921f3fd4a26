// Two job texts in, the report of both jobs pooled or the refusal out.
ghost use Rattle.job.specs.Held.{job_in};
ghost use Rattle.text.specs.Put.{Put};
ghost use Rattle.job_pool.specs.Printed.{pool_printed};
ghost use Rattle.job_pool.specs.Writer.{WritesPooled};

use crate::line::put_refused_job;
use crate::write_pooled;
use job::Job;
use refusal::Refusal;

fn pool_jobs(first: &Job, second: &Job, buf: &mut [u8]) -> Result<usize, Refusal>
    ensures { WritesPooled (job_in first.now) (job_in second.now) buf.old buf.new result }
{
    write_pooled(
        &first.samples(),
        first.limit,
        first.tolerance,
        &second.samples(),
        second.limit,
        second.tolerance,
        buf,
    )
}

// What the program prints for two texts, at the front of the buffer.
pub fn answer(first: &[u8], second: &[u8], out: &mut [u8; 2048]) -> usize
    ensures { Put (pool_printed first.now second.now) 0 out.old out.new result }
{
    let job1 = match job::read(first) {
        Ok(job) => job,
        Err(refused) => return put_refused_job(out, refused.refusal, refused.line, 1),
    };
    let job2 = match job::read(second) {
        Ok(job) => job,
        Err(refused) => return put_refused_job(out, refused.refusal, refused.line, 2),
    };
    match pool_jobs(&job1, &job2, out) {
        Ok(length) => length,
        Err(refusal) => put_refused_job(out, refusal, 0, 0),
    }
}
