// Lists of anything: their parts, tests over them, and what the first numbers give. Definitions and their laws, once over the length. No code.
#![tactic(auto)]
