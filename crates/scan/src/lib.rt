#![tactic(auto)]
// Bytes, marks, names and lent tables: what every reader and writer above is made of.
//
// A text is a slice of bytes and a place in it is an index. A scan starts at a place, reads to the
// right and answers a place; where it finds nothing it answers the text's length.
mod bytes;
mod marks;
mod names;
mod table;

pub use bytes::{Class, find_byte, find_far, is_of, over, over_far, over_long};
pub use marks::{find_past, find_seq, starts_with};
pub use names::{eq_ignore_ascii_case, same, strip_ns, tag_local};
pub use table::{append, clear, clear_bytes, clear_f32, clear_i64, copy, get, put};
