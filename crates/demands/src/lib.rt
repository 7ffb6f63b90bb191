// The publisher's demands and the marked examples, as statements: they stand in specs/.

#![tactic(auto)]
