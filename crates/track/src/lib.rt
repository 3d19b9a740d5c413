#![tactic(auto)]
// The track in lent tables.
mod alignment;
mod cells;
mod check;
mod cues;
mod extras;
mod handed;
mod limits;
mod marks;
mod params;
mod parts;
mod segments;
mod strings;
mod styles;
mod values;

pub use alignment::parse_text_align;
pub use check::check_track;
pub use handed::Tables;
pub use limits::{
    BOLD, BREAK, COLOR, CUE_CELLS, CUES, EXTRA_CELLS, EXTRAS, FONT, HEAD_CELLS, ITALIC, NESTED,
    PARAM_CELLS, PARAMS, REGION_CELLS, REGIONS, SEGMENT_CELLS, SEGMENTS, STRIKE, STYLE_CELLS,
    STYLES, TEXT, TIMESTAMP, UNDERLINE,
};
pub use marks::{size_bits, size_marks, time_bits, time_from};
pub use parts::{optional_at, size_at, span_at};
pub use segments::{Font, Rgb, Segment, segment_at};
pub use strings::Span;
pub use values::{Align, Cue, Extra, Look, Param, Region, Rows, Style};
