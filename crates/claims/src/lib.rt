// The claims: what a run of the dispatcher shows (demand 3 of document 01). No code: specs/History.antt has the words that the claim uses,
// specs/Claims.antt the claim, proofs/ its proof.
#![tactic(auto)]
