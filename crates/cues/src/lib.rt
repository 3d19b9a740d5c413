#![tactic(auto)]
// Cues in their time containers.
mod body;
mod collect;
mod cue;
mod lines;
mod paragraph;

pub use body::collect_body;
pub use collect::collect_cues;
pub use cue::collect_paragraph;
pub use lines::Line;
pub use paragraph::{is_preserve, value_of};
