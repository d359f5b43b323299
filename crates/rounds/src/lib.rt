// Theory only, no function: a receiver driven in rounds, after the top of include/pasetone.h: "What step i is depends on the outcomes and replies before it
// alone." specs/Scripts.antt has every call with its script, and what two scripts have in common below an entry; specs/Driven.antt the host's rounds.
// proofs/Rounds.antt has the theorem over every call, proofs/Driven.antt what a host has of it.

#![tactic(auto)]
