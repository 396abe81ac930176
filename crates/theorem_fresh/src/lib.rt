// A fresh table passes check 9. No code: the theorems are about definitions of the crates below.
#![tactic(auto)]
