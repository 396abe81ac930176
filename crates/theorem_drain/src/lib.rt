// From every table of the protocol's invariant at most 879 further accepted events, each a Deliver, Start, Done or Notice,
// leave no job open. Theorems only.
#![tactic(auto)]
