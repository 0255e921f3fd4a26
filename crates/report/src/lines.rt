// The report's lines: how long they are together, and the writer.
ghost use Rattle.std.specs.Prelude.{◌≤◌, length};
ghost use Rattle.text.specs.Put.{Put, Sized};
ghost use Rattle.report.specs.inner.Text.{text_of};

use record::Outcome;
use run::word::word_of;
use text::line::{numbers_length, put_word_line};
use text::rows::{put_rows, rows_length};

// The numbers of the R line, the outcome, and the numbers of axes, of which the first n have A lines.
#[derive(Clone, Copy)]
pub(crate) struct Lines {
    pub(crate) head: [i64; 5],
    pub(crate) outcome: Outcome,
    pub(crate) axes: [[i64; 11]; 8],
    pub(crate) n: usize,
    ghost few: { n ≤ 8 },
}

impl Lines {
    pub(crate) fn length(&self) -> usize
        ensures { Sized (text_of self.now.head self.now.outcome self.now.axes self.now.n) 2048 result }
    {
        let first = numbers_length(&self.head) + word_of(self.outcome).len() + 3;
        first + rows_length(&self.axes, self.n, self.n + 3)
    }

    // The A lines are written after the R line.
    pub(crate) fn put(&self, buf: &mut [u8]) -> usize
        requires { length (text_of self.now.head self.now.outcome self.now.axes self.now.n) ≤ length buf.old }
        ensures { Put (text_of self.now.head self.now.outcome self.now.axes self.now.n) 0 buf.old buf.new result }
    {
        let word = word_of(self.outcome);
        let at = put_word_line(buf, b'R', &self.head, word);
        at + put_rows(&mut buf[at..], b'A', &self.axes, self.n, self.n + 3)
    }
}
