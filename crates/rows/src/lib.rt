// Definitions and laws only, in specs/ and proofs/.

#![tactic(auto)]
