// Theorems only: a table that is written and read again is the same table, bytes that pass the check are read and written again as the same bytes,
// and a run that is kept as bytes between its events is the run of document 01. The words of the claims are in specs/RoundTrip.antt.
#![tactic(auto)]
