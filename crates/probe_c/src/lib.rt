#![tactic(auto)]
// The C names of `probe`, for the comparison with the Rust: each export calls the function of the same name, and promises what that one does.
mod basics;
mod color;
mod decimal;
mod parse;
mod time;

pub use basics::{
    probe_decode_entities, probe_eq_ignore_ascii_case, probe_escape_attr, probe_escape_text,
    probe_find_seq, probe_lookup_entity, probe_next_word, probe_numeral, probe_starts_with,
    probe_strip_ns, probe_tag_local, probe_trim, probe_utf8_end,
};
pub use color::{probe_color, probe_color_text};
pub use decimal::{
    probe_decimal, probe_decimal_f64, probe_is_size, probe_size, probe_size_width, probe_truncate,
};
pub use parse::probe_parse_xml;
pub use time::{probe_format_ts, probe_time};
