#![tactic(auto)]
// The tree reader and the grammar agree: what the reader leaves in its tables is the tree that the grammar derives. Definitions and
// proofs alone.
