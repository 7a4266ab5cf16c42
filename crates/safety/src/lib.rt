// Theorems about the rules; no code stands here.
#![tactic(auto)]
