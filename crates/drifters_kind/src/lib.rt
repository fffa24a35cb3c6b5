// The kinds of call, by which a filter is used.
#![tactic(auto)]

pub mod kind;
