// Definitions and laws only, in specs/ and proofs/: what a line of a listing tells of the bytes.

#![tactic(auto)]
