#![tactic(auto)]
// How an answer is told to a caller in C.
mod answers;
mod bits;
mod cells;
mod counts;

pub use answers::tell_style;
pub use bits::told;
pub use counts::put_counts;
