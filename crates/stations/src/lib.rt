// Theory only, no function: where a tuning leaves the oscillator whatever its status said, what a reload keeps of it, and that a rate and then a tune, both
// answered done, leave the receiver on its station. Ours: no file of the Rust has it.

#![tactic(auto)]
