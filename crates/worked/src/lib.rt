// Theory only, no function: the starred lines of document 01's "Worked numbers" as one proved list, in its order, about the very
// definitions that the contracts of the crates below cite. specs/Numbers.antt has the list, proofs/Proved.antt its proof.

#![tactic(auto)]
