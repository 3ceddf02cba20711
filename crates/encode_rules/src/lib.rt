// Definitions and laws only, in specs/ and proofs/: what an encoder must find, over any table of rows.

#![tactic(auto)]
