// Row 9 of document 01 condition by condition, and that check 9 is exactly that. No code: the theorems are about definitions of the crates below.
#![tactic(auto)]
