// Document 01's worked examples: only definitions (specs/) and their proof (proofs/), no code.

#![tactic(auto)]
