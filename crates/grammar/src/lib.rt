#![tactic(auto)]
// The grammar of the tree (document 01, "Grammar") and what is turned away: definitions and proofs alone.
