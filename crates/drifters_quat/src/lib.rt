// Port of drifters-core's quat.rs: quaternions and the rotations that they stand for.
#![tactic(auto)]

pub mod math;
