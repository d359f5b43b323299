// Theory only, no function: sections end to end in one slice, as a walk from the end of the slice finds them. Ours: no file of the Rust has it.
// Document 02, #110: "From sections end to end in one slice, oldest first".

#![tactic(auto)]
