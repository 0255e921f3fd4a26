// The limits of documents 01 and 02, each named once; specs/Limits.antt has them for the definitions.
#![tactic(auto)]

// Channels of a job or of a loaded matrix.
pub const LEAST_CHANNELS: usize = 2;

pub const MOST_CHANNELS: usize = 8;

// The sweep limit of a run.
pub const LEAST_SWEEPS: u64 = 1;

pub const MOST_SWEEPS: u64 = 16;

// Samples of a job.
pub const LEAST_SAMPLES: usize = 2;

pub const MOST_SAMPLES: usize = 256;

// The dilution of a sample, and a count of it.
pub const LEAST_DILUTION: u32 = 1;

pub const MOST_DILUTION: u32 = 100;

pub const MOST_COUNT: u32 = 65_535;

// An entry of a loaded matrix is at most this in size.
pub const ENTRY_LIMIT: u64 = 2_097_152;

// A tolerance is at most this many units.
pub const TOLERANCE_LIMIT: u64 = 1_048_576;

// The turns of one matrix.
pub const TURN_LIMIT: u64 = 448;

// The benches that call on a record.
pub const BENCHES: usize = 4;

// A count of refused calls stops here.
pub const REFUSED_LIMIT: u32 = 4_294_967_295;

// Kept entries are the loaded ones times this.
pub const UNITS: i64 = 1_024;

// Half a table entry in kept units.
pub const HALF_ENTRY: u64 = 512;

// The axes of a load have this on the diagonal: 2^30.
pub const WHOLE: i64 = 1_073_741_824;

// The greatest number of a job text: 7 digits.
pub const MOST_NUMBER: u32 = 9_999_999;

// The bytes of job text that a program reads.
pub const MOST_BYTES: usize = 16_384;

// The jobs of a season.
pub const MOST_JOBS: u64 = 10_000;
