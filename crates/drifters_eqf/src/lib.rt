// Port of drifters-eqf's filter.rs: the equivariant filter, by value. Its calls on lent runs are in drifters_entry.
#![tactic(auto)]

pub mod answer;
pub mod filter;
