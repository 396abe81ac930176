// Definitions over lists and indices that specifications share, and the laws that loops use of them.
// No code: every theorem here is about definitions of specs/.
#![tactic(auto)]
