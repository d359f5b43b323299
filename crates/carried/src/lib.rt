// Theory only, no function: demand 3 over the bytes that a host holds. Crate `sequences` has it of records by value; here every exported call that takes a
// tuner's record is one on bytes, by the definition that its exported contract cites, and the next call is given what the host was handed.
// specs/Exported.antt has the calls and what a host sees of them, specs/Carried.antt the sequences; proofs/Demand.antt has the theorems.

#![tactic(auto)]
