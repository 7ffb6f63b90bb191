// Theorems about what crosses to C and what is lent by value: they stand in proofs/.

#![tactic(auto)]
