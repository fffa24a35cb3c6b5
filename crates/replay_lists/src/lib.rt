// Calls, starts, updates by several compasses and values of functions, made on the proved code and compared with the original's stored answers.
#![tactic(auto)]

pub mod call_digest;
pub mod calls;
pub mod compasses;
mod digest;
pub mod leaves;
mod numbers;
pub mod starts;
pub mod tally;
