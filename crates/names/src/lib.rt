#![tactic(auto)]
// The attribute names that are written and looked for in a fixed order.
mod lookup;
mod tables;

pub use lookup::{append_name, contains, is_name, number_of};
pub use tables::{Listed, Name, name_at};
