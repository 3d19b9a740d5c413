// The rows of a track's tables by value. A part that may be absent has a flag; where it is not set, what it
// flags is zero and says nothing.
use crate::strings::Span;
use colors::Rgba;
use decimals::Size;

// A parameter of tt: its name without the prefix.
#[derive(Clone, Copy)]
pub struct Param {
    pub name: Span,
    pub value: Span,
}

// An attribute that is kept as it was: the number of its name in its list.
#[derive(Clone, Copy)]
pub struct Extra {
    pub number: usize,
    pub value: Span,
}

// Rows of extras: the first, and how many.
#[derive(Clone, Copy)]
pub struct Rows {
    pub first: usize,
    pub count: usize,
}

#[derive(Clone, Copy)]
pub enum Align {
    Start,
    Center,
    End,
    Left,
    Right,
}

// What a style says.
#[derive(Clone, Copy)]
pub struct Look {
    pub has_color: bool,
    pub color: Rgba,
    pub has_back: bool,
    pub back: Rgba,
    pub has_family: bool,
    pub family: Span,
    pub has_size: bool,
    pub size: Size,
    pub bold: bool,
    pub italic: bool,
    pub underline: bool,
    pub strike: bool,
    pub align: Align,
}

// A named style. A chain without bytes is none.
#[derive(Clone, Copy)]
pub struct Style {
    pub name: Span,
    pub chain: Span,
    pub look: Look,
    pub extras: Rows,
}

#[derive(Clone, Copy)]
pub struct Region {
    pub id: Span,
    pub extras: Rows,
}

// Times in microseconds; the rows of its segments.
#[derive(Clone, Copy)]
pub struct Cue {
    pub start: i64,
    pub end: i64,
    pub has_style: bool,
    pub style: Span,
    pub has_region: bool,
    pub region: Span,
    pub preserve: bool,
    pub segments: Rows,
    pub extras: Rows,
}
