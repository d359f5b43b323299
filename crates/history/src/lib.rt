// Theory only, no function: demand 3 over programs of steps, once and not for each call. What a run of crate `chip` leaves in the record is held
// against its own entries, as crate `attempts` reads them. specs/Programs.antt has the test that a program's steps pass, specs/Histories.antt
// what is stated; proofs/Demand.antt has the theorems beside the demand's sentences.

#![tactic(auto)]
