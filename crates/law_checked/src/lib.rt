// Theorems about checking what other editors return (document 02, §13).

#![tactic(auto)]
