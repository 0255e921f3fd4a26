// The writer of job text: document 02, W1.
#![tactic(auto)]

mod samples;

ghost use Rattle.std.specs.Prelude.{◌≤◌, length};
ghost use Rattle.text.specs.Put.{Put, Sized};
ghost use Rattle.job_text.specs.Writer.{WritesJobText};
ghost use Rattle.job_text.specs.inner.Lines.{text_of_lines};

use readings::Samples;
use refusal::Refusal;
use samples::Lines;
use text::line::{numbers_length, put_line};

// The length of the text, whose first line has the three numbers of `first`, and whose last has the one of `last`.
fn text_length(first: &[i64; 3], lines: &Lines, last: &[i64; 1]) -> usize
    ensures { Sized (text_of_lines first.now lines.now.samples.n lines.now.samples.dilutions.now lines.now.samples.counts.now last.now) 49152 result }
{
    numbers_length(first) + 2 + lines.length() + numbers_length(last) + 2
}

// Each line's writer gets the buffer's part from where the last line ended.
fn put_text(out: &mut [u8], first: &[i64; 3], lines: &Lines, last: &[i64; 1]) -> usize
    requires { length (text_of_lines first.now lines.now.samples.n lines.now.samples.dilutions.now lines.now.samples.counts.now last.now)
        ≤ length out.old }
    ensures { Put (text_of_lines first.now lines.now.samples.n lines.now.samples.dilutions.now lines.now.samples.counts.now last.now) 0
        out.old out.new result }
{
    let mut at = put_line(out, b'P', first);
    at += lines.put(&mut out[at..]);
    at + put_line(&mut out[at..], b'E', last)
}

// The samples with a sweep limit and a tolerance as job text. The length is known before the first byte is written, so a buffer that is too
// short stays as it is.
pub fn write_job(
    samples: &Samples,
    limit: u64,
    tolerance: u64,
    out: &mut [u8],
) -> Result<usize, Refusal>
    ensures { WritesJobText samples.now.n limit tolerance samples.now.dilutions.now samples.now.counts.now out.old out.new result }
{
    samples.check_job(limit, tolerance)?;
    let lines = Lines { samples: *samples };
    let first = [samples.n as i64, limit as i64, tolerance as i64];
    let last = [samples.dilutions.len() as i64];
    let length = text_length(&first, &lines, &last);
    if out.len() < length {
        return Err(Refusal::ShortBuffer);
    }
    Ok(put_text(out, &first, &lines, &last))
}
