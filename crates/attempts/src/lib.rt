// Theory only, no function: what entries alone say of a register of the chip at an address. Ours: no file of the Rust has it.
// Document 01, "The record": "A write of n bytes attempts n-1 registers upward from its first byte". specs/Attempts.antt has the last
// attempt and what a chip may be after entries were played on it, proofs/Played.antt what follows.

#![tactic(auto)]
