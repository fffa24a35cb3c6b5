// Port of drifters-core's matrix.rs: matrices. The factorisation is in drifters_cholesky, vectors are in drifters_core.
#![tactic(auto)]

pub mod math;
