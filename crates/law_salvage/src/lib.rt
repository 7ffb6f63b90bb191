// Theorems about the definitions: they stand in proofs/.

#![tactic(auto)]
