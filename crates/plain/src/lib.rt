// Plain words that the definitions are written in (specs/), and their laws (proofs/). Nothing in it runs.
#![tactic(auto)]
