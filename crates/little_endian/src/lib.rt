// Numbers in bytes, lowest byte first, and numbers by their bits.
#![tactic(auto)]

pub mod bits;
pub mod bytes;
