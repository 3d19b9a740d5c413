#![tactic(auto)]
// The public calls, as C sees them: the crate `ttml_c` gives each its C name.
mod back;
mod check;
mod parse_xml;
mod query;
mod read;
mod write;

pub use back::{NotBack, read_back};
pub use check::pg_check_track;
pub use parse_xml::pg_parse_xml;
pub use query::{pg_effective_style_for_cue_index, pg_region_style, pg_resolve_referenced_style};
pub use read::{pg_bytes_to_cue, pg_parse};
pub use rewritten::recaption;
pub use write::{pg_cue_to_bytes, pg_plain_text, pg_write};
