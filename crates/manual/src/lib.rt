// Definitions only: what the maker's manual says, in specs/.

#![tactic(auto)]
