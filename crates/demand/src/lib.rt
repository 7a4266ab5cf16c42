// Demand 3 over bytes: what the public calls leave in saved tables, in every run. Theorems alone, under specs/ and proofs/.
#![tactic(auto)]
