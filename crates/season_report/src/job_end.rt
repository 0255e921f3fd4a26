// The figures and one job more: a refused one, or one with its run.
ghost use Rattle.std.specs.Prelude.{◌<◌, ◌≤◌, cond, ◌≡◌};
ghost use Rattle.limits.specs.Limits.{most_jobs};
ghost use Rattle.record.specs.Kept.{Kept};
ghost use Rattle.refusal.specs.Refusal.{number_of};
ghost use Rattle.season_report.specs.Job.{error_at, ran, record_errors, refused_under};
ghost use Rattle.season_report.specs.Season.{added, larger, overtakes};

use crate::{LargestError, Season};
use record::{Outcome, Record, Run};
use refusal::Refusal;
use report::axes::own_axis;

// r_i, as the axis call answers it.
fn error_at(r: Record, i: usize) -> u64
    requires { Kept r × (1 ≤ i) × (i ≤ r.solver.n) }
    ensures { result ≡ error_at r i }
{
    own_axis(r, i).error
}

// The largest error so far, and one found after it: it stays unless that one is larger, so that the first job and the lowest axis are named.
fn with_error(largest: Option<LargestError>, found: LargestError) -> Option<LargestError>
    ensures { result ≡ cond (overtakes largest found.error) (Some found) largest }
{
    match largest {
        Some(so_far) if found.error <= so_far.error => largest,
        _ => Some(found),
    }
}

// The largest error so far, and those of axes 1 to n of a job.
fn with_errors(mut largest: Option<LargestError>, job: u64, r: Record) -> Option<LargestError>
    requires { Kept r }
    ensures { result ≡ larger largest job (record_errors r) }
{
    for i in 1..=r.channels() {
        let found = LargestError {
            error: error_at(r, i),
            job,
            axis: i as u64,
        };
        largest = with_error(largest, found);
    }
    largest
}

// A refused job, counted under its number: one of 1 to 4, as that of each text that is refused.
pub(crate) fn with_refused(s: Season, refusal: Refusal) -> Season
    requires { s.jobs < most_jobs }
    ensures { result ≡ added s (refused_under (number_of refusal)) }
{
    let mut refused = s.refused;
    let place = refusal.number() as usize - 1;
    // Tried: after `get_mut` the answer has no name of its own for what the list holds where there is no such place.
    if place < refused.len() {
        refused[place] += 1;
    }
    Season {
        jobs: s.jobs + 1,
        refused,
        ..s
    }
}

// An accepted job, by its run. Jobs are numbered from 1.
pub(crate) fn with_run(s: Season, run: Run) -> Season
    requires { (s.jobs < most_jobs) × Kept run.last }
    ensures { result ≡ added s (ran run) }
{
    let outcome = run.outcome;
    let last = run.last;
    let jobs = s.jobs + 1;
    Season {
        jobs,
        settled: s.settled + u64::from(outcome == Outcome::Settled),
        still: s.still + u64::from(outcome == Outcome::Still),
        spent: s.spent + u64::from(outcome == Outcome::Spent),
        turns: s.turns + last.turns(),
        largest: with_errors(s.largest, jobs, last),
        ..s
    }
}
