// Port of drifters-core's vec3.rs: vectors. Matrices are in drifters_matrix, quaternions in drifters_quat.
#![tactic(auto)]

pub mod math;
