// Matrices.
pub mod matrix;
pub mod runs;
