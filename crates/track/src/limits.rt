// How many rows a table may have (document 01, "Limits"; docs/TABLES.md), how many cells a row has, and the kinds of segments.
pub const HEAD_CELLS: usize = 10;

pub const PARAMS: usize = 64;

pub const PARAM_CELLS: usize = 4;

pub const STYLES: usize = 256;

pub const STYLE_CELLS: usize = 27;

pub const REGIONS: usize = 256;

pub const REGION_CELLS: usize = 4;

pub const CUES: usize = 2048;

pub const CUE_CELLS: usize = 11;

pub const SEGMENTS: usize = 16384;

pub const SEGMENT_CELLS: usize = 6;

pub const EXTRAS: usize = 8192;

pub const EXTRA_CELLS: usize = 3;

// Segments nest at most so deep.
pub const NESTED: usize = 512;

pub const TEXT: u32 = 1;

pub const BREAK: u32 = 2;

pub const TIMESTAMP: u32 = 3;

pub const BOLD: u32 = 4;

pub const ITALIC: u32 = 5;

pub const UNDERLINE: u32 = 6;

pub const STRIKE: u32 = 7;

pub const COLOR: u32 = 8;

pub const FONT: u32 = 9;
