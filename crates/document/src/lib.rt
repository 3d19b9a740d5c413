#![tactic(auto)]
// A track's text whole: the start tag of tt, the head and the cues. What is written is `written`'s.
mod calls;
mod itts;
mod params;
mod regions;
mod root;
mod styles;

pub use calls::write;
