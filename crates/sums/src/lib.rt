// The sums of samples: their number, channel sums and cross sums, in one pass over the samples.
#![tactic(auto)]

ghost use Rattle.std.specs.Prelude.{◌≡◌, ◌+◌, ◌-◌, ◌*◌, ◌≤◌, length};
ghost use Rattle.readings.specs.Samples.{sample, samples, z};
ghost use Rattle.sums.specs.Sums.{products, sums_of};
ghost use Rattle.readings.specs.Ranges.{Readings};
ghost use Rattle.sums.specs.inner.Raised.{raised};
ghost use Rattle.sums.specs.Combined.{placewise, plus_of, minus_of};
ghost use Rattle.sums.specs.Ranges.{Bounded, Included, InRange, z_limit};
ghost use Rattle.sums.specs.inner.Ranges.{Room};
ghost use Rattle.limits.specs.Limits.{most_samples};

use readings::Samples;
use std::array::from_fn;

// A cross sum of the channels i ≤ j, counted from 0, stands at 8 × i + j; any other place is 0.
// No plainer: a ghost field that says `Bounded` would leave no sums of any samples, and the definitions write such down (`sums_of`).
#[derive(Clone, Copy)]
pub struct Sums {
    pub k: u64,
    pub channel: [u64; 8],
    pub cross: [u64; 64],
}

// a × b, in 64 bits.
fn product(a: u32, b: u32) -> u64
    ensures { result ≡ a * b }
{
    a as u64 * b as u64
}

// A sample's values, added to the channel sums.
fn add_values(dilution: u32, counts: &[u32], channel: &mut [u64; 8])
    requires { InRange (sample dilution counts.now) × Room 8 (most_samples * z_limit) channel.old }
    ensures { channel.new ≡ raised 8 (z (sample dilution counts.now)) channel.old }
{
    for i in 0..counts.len() {
        channel[i] += product(counts[i], dilution);
    }
}

// A sample's products, added to the cross sums: z_i × z_j as (z_i × dilution) × count_j, so that each is one multiplication, of 32 bits by 32.
fn add_products(dilution: u32, counts: &[u32], cross: &mut [u64; 64])
    requires { InRange (sample dilution counts.now) × Room 64 (most_samples * (z_limit * z_limit)) cross.old }
    ensures { cross.new ≡ raised 64 (products (sample dilution counts.now)) cross.old }
{
    for i in 0..counts.len() {
        let factor = counts[i] * dilution * dilution;
        for j in i..counts.len() {
            cross[8 * i + j] += product(factor, counts[j]);
        }
    }
}

pub fn sums_of(readings: &Samples) -> Sums
    requires { Readings readings.now.n readings.now.dilutions.now readings.now.counts.now }
    ensures { result ≡ sums_of (samples readings.now.n readings.now.dilutions.now readings.now.counts.now) }
{
    // Read before the loop: read in it, they are read again for each sample, and the table of 256 samples takes 10 to 14 percent longer.
    let Samples {
        n,
        dilutions,
        counts,
    } = *readings;
    let mut channel = [0u64; 8];
    let mut cross = [0u64; 64];
    for s in 0..dilutions.len() {
        let start = n * s;
        let sample = &counts[start..start + n];
        add_values(dilutions[s], sample, &mut channel);
        add_products(dilutions[s], sample, &mut cross);
    }
    Sums {
        k: dilutions.len() as u64,
        channel,
        cross,
    }
}

// The sums of two lists of samples together.
pub fn plus(a: Sums, b: Sums) -> Sums
    requires { Bounded a × Bounded b × (a.k + b.k ≤ most_samples) }
    ensures { result ≡ plus_of a b }
{
    Sums {
        k: a.k + b.k,
        channel: from_fn(|i| a.channel[i] + b.channel[i]),
        cross: from_fn(|p| a.cross[p] + b.cross[p]),
    }
}

// The sums of a list without the samples that `b` has the sums of.
pub fn minus(a: Sums, b: Sums) -> Sums
    requires { Included b a }
    ensures { result ≡ minus_of a b }
{
    Sums {
        k: a.k - b.k,
        channel: from_fn(|i| a.channel[i] - b.channel[i]),
        cross: from_fn(|p| a.cross[p] - b.cross[p]),
    }
}
