// Port of drifters-eqf's lie.rs but for `integrated_adjoint`: the Lie groups below the symmetry group.
#![tactic(auto)]

pub mod lie;
