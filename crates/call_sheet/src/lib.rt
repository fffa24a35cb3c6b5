// Call sheets: a filter and calls as bytes, read, run, and printed.
#![tactic(auto)]

pub mod run;
pub mod sheet;
pub mod text;
