// Theory only, no function: one law that carries a test, which antt computes at each number below a bound, to every number below it.
// Tables and rules on bytes cite it, so that each is one computed test.

#![tactic(auto)]
