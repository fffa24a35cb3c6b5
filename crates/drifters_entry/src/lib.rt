// The entries: the calls on a filter that is lent as a run of numbers.
#![tactic(auto)]

pub mod entry;
pub mod layout;
