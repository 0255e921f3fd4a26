// Stored jobs through the library: the report of each, or the line of its refusal, one after another. The file `jobs` has for each job its
// length, a blank, the size of the buffer that is lent for its report, a line feed, and its bytes. What must be written comes from an
// independent implementation.
#![tactic(auto)]

ghost use Rattle.std.specs.Prelude.{◌≤◌, ◌<◌, IfSome, length};

use std::fs::File;
use std::io;

// The value of a digit.
fn digit(b: u8) -> Option<usize>
    ensures { IfSome result (λ d. d ≤ 9) }
{
    match b {
        b'0'..=b'9' => Some(usize::from(b - b'0')),
        _ => None,
    }
}

// A number of the file, at most 65,536, and the place after the byte that ends it.
#[derive(Clone, Copy)]
struct Number {
    value: usize,
    next: usize,
}

fn number_at(jobs: &[u8], from: usize) -> Number
    requires { from ≤ length jobs.now }
    ensures { (from ≤ result.next) × (result.next ≤ length jobs.now) × (from < length jobs.now → from < result.next) }
{
    let mut value = 0;
    for at in from..jobs.len() {
        let Some(d) = digit(jobs[at]) else {
            return Number {
                value,
                next: at + 1,
            };
        };
        value = (value * 10 + d).min(65_536);
    }
    Number {
        value,
        next: jobs.len(),
    }
}

// A job: its bytes stand from `start` to before `end`, and its report has a buffer of `size` bytes.
#[derive(Clone, Copy)]
struct Stored {
    size: usize,
    start: usize,
    end: usize,
}

fn next_job(jobs: &[u8], from: usize) -> Stored
    requires { from < length jobs.now }
    ensures { (from < result.start) × (result.start ≤ result.end) × (result.end ≤ length jobs.now) × (result.size ≤ 2048) }
{
    let length = number_at(jobs, from);
    let size = number_at(jobs, length.next);
    let start = size.next;
    Stored {
        size: size.value.min(2048),
        start,
        end: start + length.value.min(jobs.len() - start),
    }
}

fn printed(text: &[u8], size: usize, out: &mut [u8]) -> usize
    requires { (size ≤ length out.old) × (44 ≤ length out.old) }
    ensures { result ≤ length out.old }
{
    let reply = report::report(text, &mut out[..size]);
    job::reply::put_reply(reply, out)
}

fn print_job(rt: &impl Print, text: &[u8], size: usize) -> io::Result<()>
    requires { size ≤ 2048 }
{
    let mut out = [0u8; 2048];
    let length = printed(text, size, &mut out);
    rt.write_all(&out[..length])
}

fn print_jobs(rt: &impl Print, jobs: &[u8]) -> io::Result<()> {
    let mut at = 0;
    // No plainer: where a job ends is known only once its numbers are read, so no range goes over the places
    while at < jobs.len() {
        let job = next_job(jobs, at);
        let start = job.start;
        let end = job.end;
        print_job(rt, &jobs[start..end], job.size)?;
        at = end;
    }
    Ok(())
}

fn main(rt: HostRuntime) -> io::Result<()> {
    let mut jobs = [0u8; 65536];
    let n = input::read_full(&mut File::open(&rt, "jobs")?, &mut jobs)?;
    print_jobs(&rt, &jobs[..n])
}
