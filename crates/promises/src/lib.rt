// No code: what is promised of the whole stands in specs/ and proofs/.
#![tactic(auto)]
