#![tactic(auto)]
// UTF-8 and the white space of Unicode.
mod utf8;
mod white;

pub use utf8::{char_at, is_boundary, put_char, sequence_at, utf8_end};
pub use white::{Span, next_word, trim, trim_white, white_at};
