// Demand 3 over any sequence of calls: specs/Promise.antt, proofs/Always.antt. No code.
#![tactic(auto)]
