// Theory only, no function: what entries alone say of the station that a receiver stands on. Ours: no file of the Rust has it.
// specs/Demodulator.antt has the demodulator's registers as a naming of crate attempts, specs/Evidence.antt what is told of oscillator, IF, rate, lock and centre.

#![tactic(auto)]
