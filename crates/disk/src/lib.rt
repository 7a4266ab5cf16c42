// Demand 3 over journals: what the entries that are whole on disk say, in every run. Theorems alone, under specs/ and proofs/.
#![tactic(auto)]
