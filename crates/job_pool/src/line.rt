// The line of a refusal with its job: `X`, the refusal's number, its line and the job, parted by tabs.
ghost use Rattle.std.specs.Prelude.{◌≤◌, length};
ghost use Rattle.refusal.specs.Refusal.{number_of};
ghost use Rattle.text.specs.Put.{Put};
ghost use Rattle.job_pool.specs.Printed.{refused_job_line};

use refusal::Refusal;
use text::line::{LINE_FEED, put_natural_field};
use text::put_byte;

// At the front of the buffer.
pub(crate) fn put_refused_job(buf: &mut [u8], refusal: Refusal, line: usize, job: u64) -> usize
    requires { 65 ≤ length buf.old }
    ensures { Put (refused_job_line (number_of refusal) line job) 0 buf.old buf.new result }
{
    let mut at = put_byte(buf, b'X');
    at += put_natural_field(&mut buf[at..], u64::from(refusal.number()));
    at += put_natural_field(&mut buf[at..], line as u64);
    at += put_natural_field(&mut buf[at..], job);
    at + put_byte(&mut buf[at..], LINE_FEED)
}
