// The protocol's invariant: clauses over the table and its messages that hold of a fresh table and that every event keeps.
// Theorems only, no function.
//
// proofs/State.antt                           the clauses, and the record Invariant of all of them
// proofs/Fresh.antt                           a fresh table satisfies them
// proofs/Keeps.antt                           every accepted event keeps them, so every step and every run does
// Reservation*, Transfer*, Untold*, Prices*   one group of clauses each, through one group of events each
// Flight, Frame, Received, NoticeLocal,       what sending, the handlers and the events do to the table, through its views
// Reissued, About, Alive
// proofs/Untouched.antt                       a RESULT changes no job that is not open
#![tactic(auto)]
