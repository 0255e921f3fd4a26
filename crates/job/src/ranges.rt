// The ranges of the numbers of a sample.
ghost use Rattle.std.specs.Prelude.{◌≡◌, ◌≤◌};
ghost use Rattle.job.specs.inner.LineScan.{sample_within};

// "dilution (1..100) and n counts (0..65,535)"
pub(crate) fn sample_within(numbers: &[u32; 9], n: usize) -> bool
    requires { n ≤ 8 }
    ensures { result ≡ sample_within n numbers.now }
{
    readings::all_within(limits::LEAST_DILUTION, limits::MOST_DILUTION, &numbers[..1])
        && readings::all_within(0, limits::MOST_COUNT, &numbers[1..=n])
}
