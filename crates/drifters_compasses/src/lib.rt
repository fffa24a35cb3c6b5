// One update by the best of several compasses' readings.
#![tactic(auto)]

pub mod compasses;
