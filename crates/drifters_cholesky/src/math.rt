// Factoring and solving.
pub mod cholesky;
