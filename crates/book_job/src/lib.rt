// The table of a book of samples and that of a job with the same samples: statements and their proofs only.
#![tactic(auto)]
