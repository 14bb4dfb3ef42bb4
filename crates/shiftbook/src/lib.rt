// The logbook of demand 3, and what a whole list of calls of a shift comes to (specs/), with the proof (proofs/).
// There is no code here.
#![tactic(auto)]
