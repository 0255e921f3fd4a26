// The table of sums: the scatter S, the shift e and the loaded entries.
#![tactic(auto)]

pub mod table;
