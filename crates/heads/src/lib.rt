#![tactic(auto)]
// The styles and regions of the head, each from the attributes of its element.
mod collect;
mod regions;
mod styles;

pub use collect::{Heads, collect_head};
pub use regions::build_region;
pub use styles::build_style;
