#![tactic(auto)]
// The readers of whole texts.
mod calls;
mod text;

pub use calls::{bytes_to_cue, parse};
