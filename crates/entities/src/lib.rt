#![tactic(auto)]
// References and escapes: `&lt;` read as `<`, and `<` written as `&lt;`.
mod decode;
mod escape;
mod reference;

pub use decode::decode_entities;
pub use escape::{escape_attr, escape_text};
pub use reference::lookup_entity;
