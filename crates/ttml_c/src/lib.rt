#![tactic(auto)]
// The C names of the public calls: each export calls the function of the same name in `ttml`, and promises what that one does.
mod check;
mod parse_xml;
mod query;
mod read;
mod write;

pub use check::pg_check_track;
pub use parse_xml::pg_parse_xml;
pub use query::{pg_effective_style_for_cue_index, pg_region_style, pg_resolve_referenced_style};
pub use read::{pg_bytes_to_cue, pg_parse};
pub use write::{pg_cue_to_bytes, pg_plain_text, pg_write};
