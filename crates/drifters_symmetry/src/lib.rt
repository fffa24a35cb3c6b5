// Port of drifters-eqf's group.rs, lift.rs and linear.rs: the symmetry group that the equivariant filter stands on.
#![tactic(auto)]

pub mod group;
pub mod lift;
pub mod linear;
