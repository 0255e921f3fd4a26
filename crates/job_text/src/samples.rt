// The samples of a job: how long their lines are together, and the writer.
ghost use Rattle.std.specs.Prelude.{◌≡◌, map, ◌+◌, ◌<◌, ◌≤◌, pos, length, take};
ghost use Rattle.readings.specs.Ranges.{Readings};
ghost use Rattle.text.specs.Put.{Put, Sized};
ghost use Rattle.job_text.specs.JobText.{sample_numbers};
ghost use Rattle.job_text.specs.inner.Lines.{sample_lines};

use readings::Samples;
use text::line::{numbers_length, put_line};

// The lines of samples that are within their ranges.
#[derive(Clone, Copy)]
pub(crate) struct Lines<'a> {
    pub(crate) samples: Samples<'a>,
    ghost readings: { Readings samples.n samples.dilutions.now samples.counts.now },
}

impl Lines<'_> {
    // The dilution and the n counts of sample i.
    fn numbers(&self, i: usize) -> [i64; 9]
        requires { i < length self.now.samples.dilutions.now }
        ensures { (length result ≡ 9)
            × (take (self.now.samples.n + 1) result
            ≡ map pos (sample_numbers self.now.samples.n self.now.samples.dilutions.now self.now.samples.counts.now i)) }
    {
        let mut numbers = [0; 9];
        numbers[0] = i64::from(self.samples.dilutions[i]);
        let from = self.samples.n * i;
        for (j, count) in self.samples.counts[from..from + self.samples.n]
            .iter()
            .enumerate()
        {
            numbers[j + 1] = i64::from(*count);
        }
        numbers
    }

    // The length of all lines.
    pub(crate) fn length(&self) -> usize
        ensures { Sized (sample_lines self.now.samples.n self.now.samples.dilutions.now self.now.samples.counts.now) 48896 result }
    {
        let mut total = 0;
        for i in 0..self.samples.dilutions.len() {
            total += numbers_length(&self.numbers(i)[..=self.samples.n]) + 2;
        }
        total
    }

    // The lines, at the front of the buffer: each line's writer gets the buffer's part from where the last line ended.
    pub(crate) fn put(&self, out: &mut [u8]) -> usize
        requires { length (sample_lines self.now.samples.n self.now.samples.dilutions.now self.now.samples.counts.now) ≤ length out.old }
        ensures { Put (sample_lines self.now.samples.n self.now.samples.dilutions.now self.now.samples.counts.now) 0 out.old out.new result }
    {
        let mut at = 0;
        for i in 0..self.samples.dilutions.len() {
            at += put_line(&mut out[at..], b'S', &self.numbers(i)[..=self.samples.n]);
        }
        at
    }
}
