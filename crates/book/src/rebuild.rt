// A book's sums made afresh from its samples.
ghost use Rattle.std.specs.Prelude.{◌≡◌, ◌+◌, ◌*◌, ◌<◌};
ghost use Rattle.readings.specs.Samples.{total, z};
ghost use Rattle.sums.specs.Sums.{products, sums_of};
ghost use Rattle.book.specs.Book.{samples_in};
ghost use Rattle.book.specs.Consistent.{Consistent};
ghost use Rattle.book.specs.inner.Rebuild.{sample_of};

use crate::Book;
use std::array::from_fn;
use sums::Sums;

impl Book {
    // A sample's value on a channel, z = count × dilution.
    #[tactic(auto, using(crate::proofs::Rebuilding::reading))]
    fn value_at(&self, s: usize, i: usize) -> u64
        requires { Consistent self.now × (s < self.now.summary.k) × (i < self.now.n) }
        ensures { result ≡ z (sample_of self.now s) i }
    {
        u64::from(self.counts[self.n * s + i]) * u64::from(self.dilutions[s])
    }

    // z_i × z_j of a sample.
    #[tactic(auto, using(crate::proofs::Rebuilding::product_small))]
    fn product_at(&self, s: usize, i: usize, j: usize) -> u64
        requires { Consistent self.now × (s < self.now.summary.k) × (i < self.now.n) × (j < self.now.n) }
        ensures { result ≡ z (sample_of self.now s) i * z (sample_of self.now s) j }
    {
        self.value_at(s, i) * self.value_at(s, j)
    }

    // The sum of z_i over the samples: 0 of a channel that is not there.
    fn channel_sum(&self, i: usize) -> u64
        requires { Consistent self.now }
        ensures { result ≡ total (λ s. z s i) (samples_in self.now) }
    {
        if i >= self.n {
            return 0;
        }
        (0..self.summary.k as usize)
            .rev()
            .map(|s| self.value_at(s, i))
            .sum()
    }

    // The sum of z_i × z_j over the samples.
    fn pair_sum(&self, i: usize, j: usize) -> u64
        requires { Consistent self.now × (i < self.now.n) × (j < self.now.n) }
        ensures { result ≡ total (λ s. z s i * z s j) (samples_in self.now) }
    {
        (0..self.summary.k as usize)
            .rev()
            .map(|s| self.product_at(s, i, j))
            .sum()
    }

    // What stands at a place of the cross sums: that of the channels i ≤ j at 8 × i + j, else 0.
    fn cross_sum(&self, p: usize) -> u64
        requires { Consistent self.now }
        ensures { result ≡ total (λ s. products s p) (samples_in self.now) }
    {
        let i = p / 8;
        let j = p % 8;
        if i <= j && j < self.n {
            self.pair_sum(i, j)
        } else {
            0
        }
    }

    // 'A rebuild takes the sums one channel pair at a time, from the last sample to the first'.
    pub fn rebuild(self) -> Sums
        requires { Consistent self }
        ensures { result ≡ sums_of (samples_in self) }
    {
        Sums {
            k: self.summary.k,
            channel: from_fn(|i| self.channel_sum(i)),
            cross: from_fn(|p| self.cross_sum(p)),
        }
    }
}
