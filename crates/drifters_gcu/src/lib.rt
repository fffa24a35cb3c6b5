// Port of drifters-eqf's gcu.rs: inflation of the innovation covariance.
#![tactic(auto)]

pub mod gcu;
