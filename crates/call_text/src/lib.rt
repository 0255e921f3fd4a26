// Lines of calls and of answers: what a line asks for, and the line that an answer prints.
#![tactic(auto)]

pub mod answer;
pub mod field;
pub mod find;
pub mod line;
pub mod reading;
pub mod request;
