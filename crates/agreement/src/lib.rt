// Arms that agree up to their counts get the same from every call that works an arm out: specs/Respects.antt, proofs/Theorems.antt. No code.
#![tactic(auto)]
