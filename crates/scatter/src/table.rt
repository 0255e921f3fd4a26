// The table of sums: S, the shift e, and the entries that are loaded.
ghost use Rattle.std.specs.Prelude.{◌≡◌, ◌+◌, ◌*◌, ◌^◌, ◌<◌, ◌≤◌, min, max, pos, ◌-ℤ◌, get_or};
ghost use Rattle.integer.specs.Padded.{padded};
ghost use Rattle.integer.specs.Tabulate.{tabulate};
ghost use Rattle.limits.specs.Limits.{entry_limit};
ghost use Rattle.rounding.specs.Rounding.{rnd};
ghost use Rattle.readings.specs.Samples.{samples};
ghost use Rattle.readings.specs.Ranges.{Readings};
ghost use Rattle.sums.specs.inner.Ranges.{Bounded};
ghost use Rattle.scatter.specs.Table.{largest, table_from, table_of};
ghost use Rattle.scatter.specs.inner.BySums.{scatter_by_sums};
ghost use Rattle.scatter.specs.inner.Ranges.{Roundable, ZeroFrom};
ghost use Rattle.scatter.specs.inner.Shift.{LeastShift};

use readings::Samples;
use sums::Sums;

// n × n numbers, row after row, and zeros after them: the entries, and the exact S_ij that they are rounded from.
#[derive(Clone, Copy)]
pub struct Table {
    pub e: u32,
    pub entries: [i64; 64],
    pub scatter: [i64; 64],
}

// The place of the cross sum of two channels.
fn place_of(i: usize, j: usize) -> usize
    requires { (i < 8) × (j < 8) }
    ensures { result ≡ 8 * min i j + max i j }
{
    8 * i.min(j) + i.max(j)
}

// k × c − a × b
fn difference(k: u64, c: u64, a: u64, b: u64) -> i64
    requires { (k * c < 2 ^ 63) × (a * b < 2 ^ 63) }
    ensures { result ≡ pos (k * c) -ℤ pos (a * b) }
{
    (k * c) as i64 - (a * b) as i64
}

// S_ij, row after row.
fn scatter_of(n: usize, t: Sums) -> [i64; 64]
    requires { (n ≤ 8) × Bounded t }
    ensures { result ≡ padded 64 (pos 0) (scatter_by_sums n t) }
{
    let mut s = [0; 64];
    for i in 0..n {
        for j in 0..n {
            let place = place_of(i, j);
            s[i * n + j] = difference(t.k, t.cross[place], t.channel[i], t.channel[j]);
        }
    }
    s
}

// The greatest |S_ij|; from `size` on there are zeros.
fn largest_of(s: &[i64; 64], size: usize) -> u64
    requires { ZeroFrom size s.now }
    ensures { result ≡ largest s.now }
{
    s[..size]
        .iter()
        .map(|x| x.unsigned_abs())
        .max()
        .unwrap_or(0)
}

// The shift for the greatest |S_ij|.
// No plainer: how often the bound doubles until it is enough is what is asked; a `for` over 0..62 would end in an exit that no m reaches.
fn shift_of(m: u64) -> u32
    requires { m < 2 ^ 62 }
    ensures { LeastShift entry_limit m result }
{
    let mut e = 0;
    let mut bound = limits::ENTRY_LIMIT;
    while bound < m {
        bound *= 2;
        e += 1;
    }
    e
}

// rnd(S_ij / 2^e), place after place; from `size` on there are zeros.
fn entries_of(s: &[i64; 64], size: usize, e: u32) -> [i64; 64]
    requires { Roundable s.now × ZeroFrom size s.now × (e < 62) }
    ensures { result ≡ tabulate 64 (λ p. rnd (get_or s.now p (pos 0)) (2 ^ e)) }
{
    let w = 1u64 << e;
    let mut entries = [0; 64];
    for p in 0..size {
        entries[p] = rounding::nearest(s[p], w);
    }
    entries
}

// The table of samples, by their sums alone: of `sums_of ss` it is `table_of n ss` (specs/laws/BySums).
pub fn table_of(n: usize, t: Sums) -> Table
    requires { (n ≤ 8) × Bounded t }
    ensures { result ≡ table_from (scatter_by_sums n t) }
{
    let scatter = scatter_of(n, t);
    let size = n * n;
    let e = shift_of(largest_of(&scatter, size));
    let entries = entries_of(&scatter, size, e);
    Table {
        e,
        entries,
        scatter,
    }
}

pub fn table_of_readings(readings: &Samples) -> Table
    requires { Readings readings.now.n readings.now.dilutions.now readings.now.counts.now }
    ensures { result ≡ table_of readings.now.n (samples readings.now.n readings.now.dilutions.now readings.now.counts.now) }
{
    table_of(readings.n, sums::sums_of(readings))
}
