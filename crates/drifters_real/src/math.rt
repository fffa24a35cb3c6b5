// The scalars.
pub mod real;
