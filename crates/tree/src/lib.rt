#![tactic(auto)]
// The tree reader: a text read into two lent tables of numbers, rows in document order.
mod answers;
mod attrs;
mod nodes;
mod parser;
mod prolog;
mod read;
mod rows;

pub use answers::{Refusal, TreeSize};
pub use read::{BYTES, read_tree};
pub use rows::{ATTR_CELLS, ELEMENT, NODE_CELLS, SECTION, TEXT};
