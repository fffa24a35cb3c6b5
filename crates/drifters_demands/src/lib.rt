// Theorems only: the half turn, the three demands, the change-over and the starred readings. They are about the definitions of the crates below; no
// code stands on them.
#![tactic(auto)]
