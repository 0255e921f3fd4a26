// A table from readings: what refuses it, and the numbers.
ghost use Rattle.std.specs.Prelude.{◌≡◌, length};
ghost use Rattle.refusal.specs.Refusal.{judged};
ghost use Rattle.text.specs.Put.{Put};
ghost use Rattle.field_axes.specs.Table.{table_numbers_of, table_refusal};
ghost use Rattle.field_axes.specs.inner.Given.{Gives};
ghost use Rattle.field_axes.specs.inner.Readable.{Readable};

use readings::Samples;
use refusal::Refusal;

// Those of the samples first, then the buffer.
fn check_table(samples: &Samples, size: usize) -> Result<(), Refusal>
    ensures { result ≡ judged (table_refusal samples.now.n samples.now.dilutions.now samples.now.counts.now size) (record {}) }
{
    samples.check()?;
    if size < 1 + 2 * (samples.n * samples.n) {
        return Err(Refusal::ShortBuffer);
    }
    Ok(())
}

// The numbers of a table that is not refused.
fn put_table(samples: &Samples, out: &mut [i64]) -> usize
    requires { Readable samples.now.n samples.now.dilutions.now samples.now.counts.now (length out.old) }
    ensures { Put (table_numbers_of samples.now.n samples.now.dilutions.now samples.now.counts.now) 0 out.old out.new result }
{
    let table = scatter::table::table_of_readings(samples);
    let sums = table.scatter;
    let entries = table.entries;
    let size = samples.n * samples.n;
    let mut at = text::numbers::put(out, &[table.e as i64]);
    at += text::numbers::put(&mut out[at..], &sums[..size]);
    at + text::numbers::put(&mut out[at..], &entries[..size])
}

// A table from readings as numbers.
pub(crate) fn tabulate(samples: &Samples, out: &mut [i64]) -> Result<usize, Refusal>
    ensures { Gives (table_refusal samples.now.n samples.now.dilutions.now samples.now.counts.now (length out.old))
        (table_numbers_of samples.now.n samples.now.dilutions.now samples.now.counts.now) out.old out.new result }
{
    check_table(samples, out.len())?;
    Ok(put_table(samples, out))
}
