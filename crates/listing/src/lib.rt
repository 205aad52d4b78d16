// Accounts, cash and requests as lists in order (specs/), and the laws of a walk over them by their numbers (proofs/). Nothing in it runs.
#![tactic(auto)]
