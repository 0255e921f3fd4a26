// The lines after the first: the samples, and the end.
ghost use Rattle.std.specs.Prelude.{◌≡◌, ◌+◌, ◌≤◌, Ok};
ghost use Rattle.std.proofs.Math.Seq.{slice};
ghost use Rattle.std.proofs.lemmas.List.Edits.{sets};
ghost use Rattle.job.specs.Job.{job_of};
ghost use Rattle.job.specs.Reading.{reading_of};
ghost use Rattle.job.specs.inner.LineScan.{parameters_at};

use crate::first::Parameters;
use crate::last::last_line;
use crate::ranges::sample_within;
use crate::sample::sample_line;
use crate::{Job, RefusedLine};
use refusal::Refusal;

// The n counts of a sample are kept from a place on.
#[tactic(auto, using(crate::proofs::ProvedBy::keep))]
fn keep(counts: &mut [u32; 2048], numbers: &[u32; 9], from: usize, n: usize)
    requires { (n ≤ 8) × (from + n ≤ 2048) }
    ensures { counts.new ≡ sets counts.old from (slice 1 (n + 1) numbers.now) }
{
    counts[from..from + n].copy_from_slice(&numbers[1..=n]);
}

// The lines after the first, whose numbers these are: the samples from the place after it on, then the end.
pub(crate) fn samples(text: &[u8], first: Parameters) -> Result<Job, RefusedLine>
    requires { Ok first ≡ parameters_at text.now }
    ensures { result ≡ reading_of (job_of text.now) }
{
    let n = first.n;
    let mut k = 0;
    let mut dilutions = [0; 256];
    let mut counts = [0; 2048];
    let mut at = first.next;
    while let Some(line) = sample_line(text, at, n) {
        if !sample_within(&line.numbers, n) {
            return Err(RefusedLine {
                refusal: Refusal::OutOfRange,
                line: k + 2,
            });
        }
        if limits::MOST_SAMPLES <= k {
            return Err(RefusedLine {
                refusal: Refusal::SampleCount,
                line: k + 2,
            });
        }
        dilutions[k] = line.numbers[0];
        keep(&mut counts, &line.numbers, k * n, n);
        k += 1;
        at = line.next;
    }
    // Tried: `map_err(..)?` in place of the match leaves the goals of its exit open.
    match last_line(text, at, k) {
        Ok(()) => Ok(Job {
            n,
            limit: first.limit,
            tolerance: first.tolerance,
            k,
            dilutions,
            counts,
        }),
        Err(refusal) => Err(RefusedLine {
            refusal,
            line: k + 2,
        }),
    }
}
