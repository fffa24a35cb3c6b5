// Port of `integrated_adjoint` of drifters-eqf's lie.rs.
#![tactic(auto)]

pub mod adjoint;
mod series;
