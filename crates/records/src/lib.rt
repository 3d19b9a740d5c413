#![tactic(auto)]
// The rows of a track's tables, read by value and written from values; and lookups by name.
mod cells;
mod cues;
mod find;
mod head;
mod params;
mod rows;
mod segments;
mod styles;

pub use cues::{add_cue, cue_at};
pub use find::{find_chain, find_extras, find_region, find_style};
pub use head::{Head, put_head};
pub use params::{extra_at, param_at, put_extra};
pub use rows::{Row, add};
pub use segments::{add_break, add_text, drop_segment, put_segment, shift_segments};
pub use styles::{add_style, region_at, style_at};
