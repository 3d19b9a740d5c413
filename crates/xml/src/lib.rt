#![tactic(auto)]
// A text as a tree with its entities read, in lent tables; and what is asked of such tables.
mod attributes;
mod find;
mod read;
mod strings;
mod tables;

pub use attributes::Attributes;
pub use find::{Attribute, Element, attr, attr_at, element_at, find_element, is_element};
pub use read::parse_xml;
pub use tables::Tree;
