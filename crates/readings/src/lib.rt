// Samples handed over: n, a dilution each and n counts each, sample after sample. Whether their values are in range, and what they are refused with.
#![tactic(auto)]

ghost use Rattle.std.specs.Prelude.{◌≡◌};
ghost use Rattle.limits.specs.Limits.{least_channels, most_channels};
ghost use Rattle.limits.specs.Unless.{unless};
ghost use Rattle.integer.specs.Within.{all_within, within};
ghost use Rattle.refusal.specs.Refusal.{judged};
ghost use Rattle.readings.specs.Ranges.{job_within, parameters_in_range, samples_within, values_within};
ghost use Rattle.readings.specs.Refusal.{are_counted, are_so_many, job_refusal, number_refusal, samples_refusal};

use refusal::Refusal;

#[tactic(auto, unfolding(integer::specs::Within::within))]
pub fn is_within(low: u64, high: u64, x: u64) -> bool
    ensures { result ≡ within low high x }
{
    low <= x && x <= high
}

// Whether each value is from low to high.
pub fn all_within(low: u32, high: u32, values: &[u32]) -> bool
    ensures { result ≡ all_within low high values.now }
{
    values.iter().all(|x| low <= *x && *x <= high)
}

pub fn channels_within(n: usize) -> bool
    ensures { result ≡ within least_channels most_channels n }
{
    is_within(
        limits::LEAST_CHANNELS as u64,
        limits::MOST_CHANNELS as u64,
        n as u64,
    )
}

// "`P` n (2..8), sweep limit (1..16), tolerance t in units (0..1,048,576)."
#[tactic(auto, unfolding(crate::specs::Ranges::parameters_in_range))]
pub fn parameters_within(n: usize, limit: u64, tolerance: u64) -> bool
    ensures { result ≡ parameters_in_range n limit tolerance }
{
    channels_within(n)
        && is_within(limits::LEAST_SWEEPS, limits::MOST_SWEEPS, limit)
        && is_within(0, limits::TOLERANCE_LIMIT, tolerance)
}

// Samples handed over, with whatever values: n, a dilution each, and n counts each, sample after sample.
#[derive(Clone, Copy)]
pub struct Samples<'a> {
    pub n: usize,
    pub dilutions: &'a [u32],
    pub counts: &'a [u32],
}

impl Samples<'_> {
    // "dilution (1..100) and n counts (0..65,535)"
    fn samples_within(&self) -> bool
        ensures { result ≡ samples_within self.now.dilutions.now self.now.counts.now }
    {
        all_within(
            limits::LEAST_DILUTION,
            limits::MOST_DILUTION,
            self.dilutions,
        ) && all_within(0, limits::MOST_COUNT, self.counts)
    }

    pub fn values_within(&self) -> bool
        ensures { result ≡ values_within self.now.n self.now.dilutions.now self.now.counts.now }
    {
        channels_within(self.n) && self.samples_within()
    }

    // The values of a job with these samples.
    fn job_within(&self, limit: u64, tolerance: u64) -> bool
        ensures { result ≡ job_within self.now.n limit tolerance self.now.dilutions.now self.now.counts.now }
    {
        parameters_within(self.n, limit, tolerance) && self.samples_within()
    }

    // Whether there are n counts to a sample. No product is made: n and the lengths may be any.
    #[tactic(auto, using(crate::proofs::Counted::counted))]
    pub fn are_counted(&self) -> bool
        ensures { result ≡ are_counted self.now.n self.now.dilutions.now self.now.counts.now }
    {
        if self.n == 0 {
            return self.counts.is_empty();
        }
        self.counts.len() % self.n == 0 && self.counts.len() / self.n == self.dilutions.len()
    }

    fn are_so_many(&self) -> bool
        ensures { result ≡ are_so_many self.now.dilutions.now }
    {
        is_within(
            limits::LEAST_SAMPLES as u64,
            limits::MOST_SAMPLES as u64,
            self.dilutions.len() as u64,
        )
    }

    // 'tried in that order': whether all values are within their ranges, how many counts there are, how many samples.
    #[tactic(auto, unfolding(refusal::specs::Refusal::judged, crate::specs::Refusal::number_refusal))]
    fn check_within(&self, within: bool) -> Result<(), Refusal>
        ensures { result ≡ judged (unless within 2 (number_refusal self.now.n self.now.dilutions.now self.now.counts.now)) (record {}) }
    {
        if !within {
            return Err(Refusal::OutOfRange);
        }
        if !self.are_counted() {
            return Err(Refusal::ListLength);
        }
        if !self.are_so_many() {
            return Err(Refusal::SampleCount);
        }
        Ok(())
    }

    // What n and samples are refused with.
    #[tactic(auto, unfolding(crate::specs::Refusal::samples_refusal))]
    pub fn check(&self) -> Result<(), Refusal>
        ensures { result ≡ judged (samples_refusal self.now.n self.now.dilutions.now self.now.counts.now) (record {}) }
    {
        self.check_within(self.values_within())
    }

    // What a job of these samples is refused with.
    #[tactic(auto, unfolding(crate::specs::Refusal::job_refusal))]
    pub fn check_job(&self, limit: u64, tolerance: u64) -> Result<(), Refusal>
        ensures { result ≡ judged (job_refusal self.now.n limit tolerance self.now.dilutions.now self.now.counts.now) (record {}) }
    {
        self.check_within(self.job_within(limit, tolerance))
    }
}
