// The text of a job's table: job text in, the lines of its exact sums or the refusal out.
ghost use Rattle.std.specs.Prelude.{◌≡◌, ◌∷◌, [], ◌≤◌, length, pos};
ghost use Rattle.job.specs.Held.{job_in};
ghost use Rattle.job.specs.Job.{accepted};
ghost use Rattle.job.specs.Reply.{Answers, Replies, printed_of};
ghost use Rattle.text.specs.Put.{Put, Sized};
ghost use Rattle.job_table.specs.inner.Done.{text_of_rows};
ghost use Rattle.job_table.specs.inner.Rows.{table_rows};
ghost use Rattle.job_table.specs.Table.{PutsTable, table_text};
ghost use Rattle.limits.specs.Limits.{most_samples};

use crate::rows::rows_of;
use job::reply::put_reply;
use job::{Job, RefusedLine};
use refusal::Refusal;
use scatter::table::Table;
use text::line::{numbers_length, put_line};
use text::rows::{put_rows, rows_length};

// The numbers of a table's text: those of its first line, and rows, of which the first n are the table's.
#[derive(Clone, Copy)]
struct Lines {
    head: [i64; 3],
    n: usize,
    rows: [[i64; 11]; 8],
    ghost few: { n ≤ 8 },
}

impl Lines {
    fn of(n: usize, k: usize, table: Table) -> Lines
        requires { (n ≤ 8) × (k ≤ most_samples) }
        ensures { (result.head ≡ pos n ∷ pos k ∷ pos table.e ∷ []) × (result.n ≡ n) × (result.rows ≡ table_rows n table.scatter) }
    {
        let sums = table.scatter;
        Lines {
            head: [n as i64, k as i64, i64::from(table.e)],
            n,
            rows: rows_of(n, &sums),
        }
    }

    fn length(&self) -> usize
        ensures { Sized (text_of_rows self.now.head self.now.n self.now.rows) 2048 result }
    {
        numbers_length(&self.head) + 2 + rows_length(&self.rows, self.n, self.n + 1)
    }

    fn put(&self, buf: &mut [u8]) -> usize
        requires { length (text_of_rows self.now.head self.now.n self.now.rows) ≤ length buf.old }
        ensures { Put (text_of_rows self.now.head self.now.n self.now.rows) 0 buf.old buf.new result }
    {
        let at = put_line(buf, b'T', &self.head);
        at + put_rows(&mut buf[at..], b'S', &self.rows, self.n, self.n + 1)
    }
}

// The length is known before the first byte is written, so a buffer that is too short stays as it is.
fn table_job(job: &Job, buf: &mut [u8]) -> Result<usize, RefusedLine>
    ensures { Answers table_text (accepted (job_in job.now)) buf.old buf.new result }
{
    let table = crate::table_of(job);
    let lines = Lines::of(job.n, job.k, table);
    if buf.len() < lines.length() {
        return Err(Refusal::ShortBuffer.into());
    }
    Ok(lines.put(buf))
}

// The text of a table of k samples of n channels.
pub fn put_table(buf: &mut [u8; 2048], n: usize, k: usize, table: Table) -> usize
    requires { (n ≤ 8) × (k ≤ most_samples) }
    ensures { PutsTable n k table buf.old buf.new result }
{
    let lines = Lines::of(n, k, table);
    let length = lines.length();
    lines.put(buf);
    length
}

pub(crate) fn table_text(text: &[u8], buf: &mut [u8]) -> Result<usize, RefusedLine>
    ensures { Replies table_text text.now buf.old buf.new result }
{
    let job = job::read(text)?;
    table_job(&job, buf)
}

// What the program prints, at the front of the buffer: the table's text, or the line of the refusal.
pub fn answer(text: &[u8], out: &mut [u8; 2048]) -> usize
    ensures { Put (printed_of table_text text.now) 0 out.old out.new result }
{
    let reply = table_text(text, out);
    put_reply(reply, out)
}
