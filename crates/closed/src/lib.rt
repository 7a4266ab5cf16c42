// Every event keeps records sound and sends what its receivers take: theorems alone, under specs/ and proofs/.
#![tactic(auto)]
