// The marked examples of document 01, as one table under one statement: specs/Marked.antt, proofs/Table.antt. No code.
#![tactic(auto)]
