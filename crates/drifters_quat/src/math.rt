// Quaternions.
pub mod quat;
