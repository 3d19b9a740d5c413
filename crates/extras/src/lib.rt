#![tactic(auto)]
// Attributes that are kept as they were.
mod extras;

pub use extras::{collect_p_inline_extras, collect_region_attrs, collect_style_extras};
