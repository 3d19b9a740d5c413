#![tactic(auto)]
// The three queries on a handed track: a style value, a region, a cue.
mod check;
mod kept;
mod own;
mod query;
mod region;

pub use query::{
    Resolved, Styled, effective_style_for_cue_index, region_style, resolve_referenced_style,
};
