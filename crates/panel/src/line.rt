// The line of a panel: its entries, and how its run ends.
ghost use Rattle.std.specs.Prelude.{true, ◌≡◌, ◌≤◌, length};
ghost use Rattle.text.specs.Put.{Put, Sized};
ghost use Rattle.panel.specs.Listed.{panel_within};
ghost use Rattle.panel.specs.Refusal.{most_size};
ghost use Rattle.panel.specs.Text.{fields_line, panel_line, panel_run};
ghost use Rattle.panel.specs.inner.Line.{FieldsOf};

use crate::Panel;
use record::{Outcome, Run};
use run::word::word_of;
use text::line::{LINE_FEED, TAB};
use text::{put_byte, put_bytes};

// Each panel is run with this limit and this tolerance.
const LIMIT: u64 = 16;

const TOLERANCE: u64 = 0;

// The numbers of the line, and the outcome.
#[derive(Clone, Copy)]
struct LineFields {
    numbers: [i64; 5],
    outcome: Outcome,
}

fn run_panel(x: Panel) -> Run
    requires { panel_within most_size x ≡ true }
    ensures { result ≡ panel_run x }
{
    let entries = [x.a11, x.a12, x.a12, x.a22];
    run::run(2, &entries, LIMIT, TOLERANCE)
}

fn line_fields(x: Panel) -> LineFields
    requires { panel_within most_size x ≡ true }
    ensures { FieldsOf x result }
{
    let run = run_panel(x);
    let outcome = run.outcome;
    let last = run.last;
    let numbers = [x.a11, x.a12, x.a22, run.sweeps as i64, last.turns() as i64];
    LineFields { numbers, outcome }
}

// How many bytes the line has.
pub(crate) fn line_length(x: Panel) -> usize
    requires { panel_within most_size x ≡ true }
    ensures { Sized (panel_line x) 23 result }
{
    let fields = line_fields(x);
    text::line::numbers_length(&fields.numbers) + word_of(fields.outcome).len() + 1
}

// A line of numbers and a word, at the front of the buffer.
fn put_fields(buf: &mut [u8], numbers: &[i64], word: &[u8]) -> usize
    requires { (1 ≤ length numbers.now) × (length (fields_line numbers.now word.now) ≤ length buf.old) }
    ensures { Put (fields_line numbers.now word.now) 0 buf.old buf.new result }
{
    let mut at = text::line::put_fields(buf, numbers);
    at += put_byte(&mut buf[at..], TAB);
    at += put_bytes(&mut buf[at..], word);
    at + put_byte(&mut buf[at..], LINE_FEED)
}

// The line, at the front of the buffer.
pub(crate) fn put_line(buf: &mut [u8], x: Panel) -> usize
    requires { (panel_within most_size x ≡ true) × (length (panel_line x) ≤ length buf.old) }
    ensures { Put (panel_line x) 0 buf.old buf.new result }
{
    let fields = line_fields(x);
    put_fields(buf, &fields.numbers, word_of(fields.outcome))
}
