#![tactic(auto)]
// The inline content of a p, or of a single cue.
mod collect;

pub use collect::{Run, around, collect_segments_inner, collect_segments_timed};
