// Theory only, no function: restore lists, the fewest writes that say where sections end to end left the registers of a chip. Ours: no file of the
// Rust has it. Document 02, #110. What entries attempt is crate `attempts`, what sections end to end are is crate `sections`, the code is crate `restoring`.

#![tactic(auto)]
