// Check 9 as facts, and that every event keeps them. No code: every theorem here is about definitions of the crates below.
#![tactic(auto)]
