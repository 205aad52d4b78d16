// What else may be asked of the trades that wait, as definitions (specs/) and what is proved of them (proofs/). Nothing in it runs.
#![tactic(auto)]
