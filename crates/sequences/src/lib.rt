// Theory only, no function: demand 3 over the library's own calls. Every call that takes or hands back a tuner record, by its contract's
// definition, is one more call of crate `history`'s sequences; GPIO and demodulator calls may stand between them. specs/Calls.antt has the
// calls and their entries, specs/Sequences.antt the sequences; proofs/Demand.antt has the theorems beside the demand's sentences, proofs/Most.antt
// document 01's most entries per call.

#![tactic(auto)]
