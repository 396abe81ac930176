// The starred examples of document 01, as rows of one theorem. No code: specs/Rows.antt has the rows, proofs/Starred.antt the theorem.
#![tactic(auto)]
