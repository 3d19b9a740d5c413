#![tactic(auto)]
// Time expressions read to microseconds, and microseconds written as clock times.
mod clock;
mod offset;
mod sums;
mod usual;
mod write;

pub use clock::parse_ttml_time;
pub use offset::{TimeError, TimingCtx};
pub use sums::add;
pub use write::format_ts;
