// What an instance reaches: theorems alone, under specs/ and proofs/.
#![tactic(auto)]
