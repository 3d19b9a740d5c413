#![tactic(auto)]
// Decimals as document 01 has them: what Rust's float parser takes, within limits of digits; their
// value as an f64 or an f32, by one division; truncation to an i64; and a size with its spelling.
mod floats;
mod read;
mod size;

pub use floats::{to_f32, to_f64, truncate};
pub use read::{DecimalError, Digits, read_decimal};
pub use size::{Size, is_size, is_spelling, size_of, spell, spelled_bits, spelled_value};
