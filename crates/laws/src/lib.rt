// Definitions and laws only, in specs/ and proofs/: tests that the checker computes, lists, parts of buffers.

#![tactic(auto)]
