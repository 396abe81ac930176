// The run that copies most (document 02, 2.7): its events are accepted over every book that they are written for, and no run has a higher replica number
// for its deaths. No code: specs/WorstRun.antt has the claim, proofs/ its proof.
#![tactic(auto)]
