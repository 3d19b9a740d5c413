#![tactic(auto)]
// What the attributes of tt, of a style and of a region say by exact names, and ids.
mod ids;
mod params;
mod rates;
mod seek;

pub use ids::{id_of, lang_of};
pub use params::collect_params;
pub use rates::timing_of;
