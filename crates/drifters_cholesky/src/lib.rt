// Port of the Cholesky factorisation of drifters-core's matrix.rs.
#![tactic(auto)]

pub mod math;
