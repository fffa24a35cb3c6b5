// Port of real.rs of drifters-core: square root, sine and cosine, and the methods of f64 that the filter uses.
#![tactic(auto)]

pub mod math;
