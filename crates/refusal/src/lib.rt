// The refusals of documents 01 and 02, each with its number.
#![tactic(auto)]

ghost use Rattle.std.specs.Prelude.{◌≡◌};
ghost use Rattle.refusal.specs.Refusal.{number_of};

// Why a call, a job or a writer is refused.
#[derive(Clone, Copy, Debug, PartialEq, Eq)]
pub enum Refusal {
    Malformed,
    OutOfRange,
    SampleCount,
    WrongEnd,
    ChannelCount,
    ListLength,
    Unsymmetric,
    EntryLimit,
    OutsideMatrix,
    NoMatrix,
    TurnLimit,
    ShortBuffer,
    UnequalChannels,
    NoSuchSample,
    NoSuchBench,
    TooManyJobs,
}

impl Refusal {
    // 'A refusal returns its number'.
    pub fn number(self) -> u32
        ensures { result ≡ number_of self }
    {
        self as u32 + 1
    }
}
