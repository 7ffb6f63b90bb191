// What the proofs by hand share: it stands in proofs/.

#![tactic(auto)]
