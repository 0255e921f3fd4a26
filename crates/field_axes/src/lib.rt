// What the static library offers, as functions of Rattle; the crate `field_axes_c` exports them to Rust and C.
// C interface: samples come as n, dilutions and counts, one by one, and each function makes the struct of them at once.
#![tactic(auto)]

mod solve;
mod table;

ghost use Rattle.std.specs.Prelude.{◌≡◌, ◌<◌, ◌^◌, IfOk, length};
ghost use Rattle.job_text.specs.JobText.{job_with};
ghost use Rattle.panel.specs.Refusal.{of_panel, panel_at_position};
ghost use Rattle.field_axes.specs.Answer.{answered};
ghost use Rattle.field_axes.specs.Done.{GivesPanel, ListsPanels, PlaysText, ReportsPooled, ReportsSeason, ReportsText, Solves, Tabulates, WritesJob};
ghost use Rattle.field_axes.specs.Panels.{panel_numbers, panel_of, panel_refusal};
ghost use Rattle.field_axes.specs.inner.Given.{Gives};

use panel::Panel;
use readings::Samples;
use refusal::Refusal;

// The answer of every function here: how many numbers or bytes were written, or the refusal's number negated.
fn answer(done: Result<usize, Refusal>) -> i64
    requires { IfOk done (λ count. count < 2 ^ 63) }
    ensures { result ≡ answered done }
{
    match done {
        Ok(count) => count as i64,
        Err(refusal) => -i64::from(refusal.number()),
    }
}

// A run on n×n numbers, row after row, and its axes. Into `out`: the outcome (0 settled, 1 still, 2 spent), the sweeps run, m, then for
// each axis a_ii, r_i and the n numbers of its row. The answer is how many numbers these are, or the refusal's number negated.
pub fn field_axes_solve(
    n: usize,
    numbers: &[i64],
    limit: u64,
    tolerance: u64,
    out: &mut [i64],
) -> i64
    ensures { Solves n numbers.now limit tolerance out.old out.new result }
{
    answer(solve::solve(n, numbers, limit, tolerance, out))
}

// The table of samples, a dilution each and n counts each, sample after sample. Into `out`: the shift e, the n×n exact S_ij, and the n×n
// entries, row after row. The answer is how many numbers these are, or the refusal's number negated.
pub fn field_axes_table(n: usize, dilutions: &[u32], counts: &[u32], out: &mut [i64]) -> i64
    ensures { Tabulates n dilutions.now counts.now out.old out.new result }
{
    let samples = Samples {
        n,
        dilutions,
        counts,
    };
    answer(table::tabulate(&samples, out))
}

// Job text of n, the sweep limit, the tolerance and samples, a dilution each and n counts each, sample after sample. Into `out`: the text. The
// answer is its length, or the refusal's number negated.
pub fn field_axes_job(
    n: usize,
    limit: u64,
    tolerance: u64,
    dilutions: &[u32],
    counts: &[u32],
    out: &mut [u8],
) -> i64
    ensures { WritesJob n limit tolerance dilutions.now counts.now out.old out.new result }
{
    let samples = Samples {
        n,
        dilutions,
        counts,
    };
    answer(job_text::write_job(&samples, limit, tolerance, out))
}

// A job text to its report, document 01's `axes` as a function. Into `out`: the report. The answer is its length, or the refusal's number
// negated; into `line` goes the refusal's line, or 0 where there is none.
pub fn field_axes_report(text: &[u8], out: &mut [u8], line: &mut usize) -> i64
    ensures { ReportsText text.now out.old out.new line.new result }
{
    match report::report(text, out) {
        Ok(length) => {
            *line = 0;
            answer(Ok(length))
        }
        Err(refused) => {
            *line = refused.line;
            answer(Err(refused.refusal))
        }
    }
}

// The report of two jobs pooled, each handed over as to `field_axes_job`; the sweep limit and the tolerance are the first one's. Into `out`: the
// report. The answer is its length, or the refusal's number negated.
pub fn field_axes_pool(
    n: usize,
    limit: u64,
    tolerance: u64,
    dilutions: &[u32],
    counts: &[u32],
    other_n: usize,
    other_limit: u64,
    other_tolerance: u64,
    other_dilutions: &[u32],
    other_counts: &[u32],
    out: &mut [u8],
) -> i64
    ensures { ReportsPooled (job_with n limit tolerance dilutions.now counts.now)
        (job_with other_n other_limit other_tolerance other_dilutions.now other_counts.now)
        out.old out.new result }
{
    let first = Samples {
        n,
        dilutions,
        counts,
    };
    let second = Samples {
        n: other_n,
        dilutions: other_dilutions,
        counts: other_counts,
    };
    answer(job_pool::write_pooled(
        &first,
        limit,
        tolerance,
        &second,
        other_limit,
        other_tolerance,
        out,
    ))
}

// A text of calls, a line each, played on a fresh record. Into `out`: an answer a line. The answer is their length, or 12 negated where the
// buffer is too short.
pub fn field_axes_calls(text: &[u8], out: &mut [u8]) -> i64
    ensures { PlaysText text.now out.old out.new result }
{
    answer(play::play(text, out))
}

// All panels of size b, each run with limit 16 and tolerance 0. Into `out`: a line each. The answer is their length, or the refusal's number
// negated.
pub fn field_axes_panels(b: i64, out: &mut [u8]) -> i64
    ensures { ListsPanels b out.old out.new result }
{
    answer(panel::lines::write_panels(b, out))
}

// The panel at a position of that list, from 1. Into `out`: a_11, a_12, a_22. The answer is 3, or the refusal's number negated.
pub fn field_axes_panel(b: i64, position: i64, out: &mut [i64]) -> i64
    ensures { GivesPanel b position out.old out.new result }
{
    answer(put_panel(b, position, out))
}

// The numbers of the panel at a position.
fn put_panel(b: i64, position: i64, out: &mut [i64]) -> Result<usize, Refusal>
    ensures { Gives (panel_refusal b position (length out.old)) (panel_numbers (panel_at_position b position)) out.old out.new result }
{
    let x = panel::position::panel_at(b, position)?;
    if out.len() < 3 {
        return Err(Refusal::ShortBuffer);
    }
    let entries = [x.a11, x.a12, x.a22];
    Ok(text::numbers::put(out, &entries))
}

// The position in that list, from 1, of the panel of these entries, or the refusal's number negated.
pub fn field_axes_panel_position(b: i64, a11: i64, a12: i64, a22: i64) -> i64
    ensures { result ≡ answered (of_panel b (panel_of a11 a12 a22)) }
{
    answer(position(b, Panel { a11, a12, a22 }))
}

fn position(b: i64, x: Panel) -> Result<usize, Refusal>
    ensures { result ≡ of_panel b x }
{
    Ok(panel::position::position_of(b, x)? as usize)
}

// The season of job texts that stand one after another in one buffer, each to before its end. Into `out`: the line of its figures. The answer is its
// length, or the refusal's number negated.
pub fn field_axes_season(texts: &[u8], ends: &[usize], out: &mut [u8]) -> i64
    ensures { ReportsSeason texts.now ends.now out.old out.new result }
{
    answer(season_report::texts::write_season(texts, ends, out))
}
