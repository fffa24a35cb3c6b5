// Port of the covariance lines of drifters-eqf's filter.rs. The filter is in drifters_eqf.
#![tactic(auto)]

pub mod covariance;
