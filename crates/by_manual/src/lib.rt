// Definitions and laws only, in specs/ and proofs/: the rows that request A9 changes to the manual's.

#![tactic(auto)]
