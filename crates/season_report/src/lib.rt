// Season report: the figures of up to 10,000 jobs, taken one after another. Document 02, W14.
#![tactic(auto)]

pub mod job_end;
pub mod line;
pub mod texts;

ghost use Rattle.std.specs.Prelude.{◌≡◌};
ghost use Rattle.season_report.specs.Done.{Takes, WritesLine};
ghost use Rattle.season_report.specs.Season.{empty_season};

use job::RefusedLine;
use refusal::Refusal;
use std::marker::Model;

// How many jobs were taken, how they ended or under which number from 1 to 4 they were refused, the turns of all, and the largest error of an axis,
// of which there is none before a job is accepted.
#[derive(Drop)]
pub struct Season {
    jobs: u64,
    settled: u64,
    still: u64,
    spent: u64,
    refused: [u64; 4],
    turns: u64,
    largest: Option<LargestError>,
}

impl Model for Season {
    ghost use Rattle.season_report.specs.SeasonFigures.{SeasonFigures};

    ghost Value = { SeasonFigures };

    ghost use Rattle.season_report.specs.Limits.{SeasonLimits, figures_in};

    ghost view = { figures_in };

    ghost invariant = { λ a. SeasonLimits (figures_in a) };
}

// The largest error of an axis, with the first job and the lowest axis in it that have it; both are numbered from 1.
#[derive(Clone, Copy)]
pub struct LargestError {
    error: u64,
    job: u64,
    axis: u64,
}

// What a job's text is answered with, and the season that it leaves.
#[derive(Drop)]
pub struct Taken {
    pub answer: Result<(), RefusedLine>,
    pub next: Season,
}

impl Season {
    pub const MOST_JOBS: u64 = limits::MOST_JOBS;

    // No job yet.
    pub fn new() -> Self
        ensures { result ≡ empty_season }
    {
        Season {
            jobs: 0,
            settled: 0,
            still: 0,
            spent: 0,
            refused: [0; 4],
            turns: 0,
            largest: None,
        }
    }

    // One job text more: accepted, or refused 1 to 4 with its line; the 10,001st is refused 16, unread.
    pub fn take(self, text: &[u8]) -> Taken
        ensures { Takes self text.now result }
    {
        if Season::MOST_JOBS <= self.jobs {
            let refused = RefusedLine {
                refusal: Refusal::TooManyJobs,
                line: 0,
            };
            return Taken {
                answer: Err(refused),
                next: self,
            };
        }
        match job::read(text) {
            Ok(job) => Taken {
                answer: Ok(()),
                next: job_end::with_run(self, report::run_of_job(&job)),
            },
            Err(refused) => Taken {
                answer: Err(refused),
                next: job_end::with_refused(self, refused.refusal),
            },
        }
    }

    // The line of the figures, into a lent buffer.
    pub fn write_line(self, out: &mut [u8]) -> Result<usize, Refusal>
        ensures { WritesLine self out.old out.new result }
    {
        let numbers = line::numbers_of(self);
        if out.len() < line::line_length(&numbers) {
            return Err(Refusal::ShortBuffer);
        }
        Ok(line::put_line(out, &numbers))
    }
}
