// What a call on a book of k samples of n channels is refused with.
ghost use Rattle.std.specs.Prelude.{◌≡◌};
ghost use Rattle.refusal.specs.Refusal.{judged};
ghost use Rattle.book.specs.Calls.{add, book_refusal, channels_then, make_table, strike};

use readings::{Samples, channels_within, is_within};
use refusal::Refusal;

// 2 for n outside 2..8.
#[tactic(auto, unfolding(refusal::specs::Refusal::judged))]
pub(crate) fn check_channels(n: usize) -> Result<(), Refusal>
    ensures { result ≡ judged (channels_then n 0) (record {}) }
{
    if !channels_within(n) {
        return Err(Refusal::OutOfRange);
    }
    Ok(())
}

#[tactic(auto, unfolding(crate::specs::Calls::book_refusal, refusal::specs::Refusal::judged))]
pub(crate) fn check_add(n: usize, k: u64, dilution: u32, counts: &[u32]) -> Result<(), Refusal>
    ensures { result ≡ judged (book_refusal n k (add dilution counts.now)) (record {}) }
{
    let one = Samples {
        n,
        dilutions: &[dilution],
        counts,
    };
    if !one.values_within() {
        return Err(Refusal::OutOfRange);
    }
    if !one.are_counted() {
        return Err(Refusal::ListLength);
    }
    if k >= limits::MOST_SAMPLES as u64 {
        return Err(Refusal::SampleCount);
    }
    Ok(())
}

#[tactic(auto, unfolding(crate::specs::Calls::book_refusal, refusal::specs::Refusal::judged))]
pub(crate) fn check_strike(n: usize, k: u64, i: usize) -> Result<(), Refusal>
    ensures { result ≡ judged (book_refusal n k (strike i)) (record {}) }
{
    check_channels(n)?;
    if !is_within(1, k, i as u64) {
        return Err(Refusal::NoSuchSample);
    }
    Ok(())
}

#[tactic(auto, unfolding(crate::specs::Calls::book_refusal, refusal::specs::Refusal::judged))]
pub(crate) fn check_table(n: usize, k: u64) -> Result<(), Refusal>
    ensures { result ≡ judged (book_refusal n k make_table) (record {}) }
{
    check_channels(n)?;
    if k < limits::LEAST_SAMPLES as u64 {
        return Err(Refusal::SampleCount);
    }
    Ok(())
}
