// What two jobs handed over are refused with: 13 for unequal channel numbers, the first job's 2, 6 and 3, the second one's, then 3 for more than 256
// samples together.
ghost use Rattle.std.specs.Prelude.{◌≡◌};
ghost use Rattle.job_text.specs.JobText.{job_with};
ghost use Rattle.refusal.specs.Refusal.{judged};
ghost use Rattle.job_pool.specs.Refusal.{pool_refusal};

use readings::Samples;
use refusal::Refusal;

pub(crate) fn check_pool(
    first: &Samples,
    limit1: u64,
    tolerance1: u64,
    second: &Samples,
    limit2: u64,
    tolerance2: u64,
) -> Result<(), Refusal>
    ensures { result ≡ judged (pool_refusal (job_with first.now.n limit1 tolerance1 first.now.dilutions.now first.now.counts.now)
        (job_with second.now.n limit2 tolerance2 second.now.dilutions.now second.now.counts.now)) (record {}) }
{
    if first.n != second.n {
        return Err(Refusal::UnequalChannels);
    }
    first.check_job(limit1, tolerance1)?;
    second.check_job(limit2, tolerance2)?;
    if first.dilutions.len() + second.dilutions.len() > limits::MOST_SAMPLES {
        return Err(Refusal::SampleCount);
    }
    Ok(())
}
