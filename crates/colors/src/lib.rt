#![tactic(auto)]
// Colours: read as TTML and the Rust have them, and written in hexadecimal.
mod named;
mod read;
mod write;

pub use read::{ColorError, Rgba, parse_ttml_color_rgb, parse_ttml_color_rgba};
pub use write::{append_rgb, append_rgba};
