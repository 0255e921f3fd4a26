// The reader of job text: document 01, "Job text and report", and its refusals 1 to 4.
#![tactic(auto)]

pub mod field;
pub mod first;
pub mod last;
pub mod ranges;
pub mod reply;
pub mod sample;
mod samples;

ghost use Rattle.std.specs.Prelude.{◌≡◌};
ghost use Rattle.job.specs.Held.{job_in};
ghost use Rattle.job.specs.Job.{job_of};
ghost use Rattle.job.specs.Reading.{reading_of};
ghost use Rattle.job.specs.Values.{Proper};

use crate::first::first_line;
use readings::Samples;
use refusal::Refusal;
use samples::samples;
use std::marker::Model;

// A job, every value in its range: the first k dilutions and the first k × n counts, n to a sample, are those of its samples.
// Rule of the project: no heap, so the arrays have the length of the longest job's.
#[derive(Clone, Copy)]
pub struct Job {
    pub n: usize,
    pub limit: u64,
    pub tolerance: u64,
    pub k: usize,
    pub dilutions: [u32; 256],
    pub counts: [u32; 2048],
}

impl Model for Job {
    ghost use Rattle.job.specs.JobArrays.{JobArrays};

    ghost Value = { JobArrays };

    ghost use Rattle.job.specs.Fields.{arrays_in, fields_of};
    ghost use Rattle.job.specs.Held.{Held};

    ghost view = { arrays_in };

    ghost invariant = { λ a. Held (arrays_in a) };

    ghost inverse = { fields_of };
}

impl Job {
    // The arrays are lent, since a copy of them costs more than a small table.
    pub fn samples(&self) -> Samples<'_>
        ensures proper { Proper (job_in self.now) }
        ensures lends { let j = job_in self.now in (result.n ≡ j.n) × (result.dilutions.now ≡ j.dilutions) × (result.counts.now ≡ j.counts) }
    {
        Samples {
            n: self.n,
            dilutions: &self.dilutions[..self.k],
            counts: &self.counts[..self.k * self.n],
        }
    }
}

// Why a text is refused, and at which line of it.
#[derive(Clone, Copy, Debug, PartialEq, Eq)]
pub struct RefusedLine {
    pub refusal: Refusal,
    pub line: usize,
}

// Document 01, "A refusal returns its number (1 to 4 from job text, also the line)": any other, as of a buffer that is too short, has line 0.
// No plainer: where there is none, an Option would be made a 0 again by each program that prints it and by what C calls.
impl From<Refusal> for RefusedLine {
    ghost from_gives = { λ refusal refused. refused ≡ record { refusal = refusal; line = 0 } };

    fn from(refusal: Refusal) -> RefusedLine {
        RefusedLine { refusal, line: 0 }
    }
}

pub fn read(text: &[u8]) -> Result<Job, RefusedLine>
    ensures { result ≡ reading_of (job_of text.now) }
{
    match first_line(text) {
        Ok(first) => samples(text, first),
        Err(refusal) => Err(RefusedLine { refusal, line: 1 }),
    }
}
