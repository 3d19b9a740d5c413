// Segments: rows in document order, each with the number of rows of its subtree.
ghost use Rattle.std.specs.Prelude.{◌≡◌, true, ◌+◌, ◌*◌, ◌≤◌, length, get_or};
ghost use Rattle.track.specs.Tables.{font_at, segment_at};
ghost use Rattle.track.specs.Meaning.{are_three, is_font, is_segment, are_segments};

use crate::handed::Tables;
use crate::limits::{
    BOLD, BREAK, COLOR, FONT, ITALIC, SEGMENT_CELLS, STRIKE, TEXT, TIMESTAMP, UNDERLINE,
};
use crate::strings::{Span, is_optional, is_span};
use decimals::Size;

#[derive(Clone, Copy)]
pub struct Rgb {
    pub r: u8,
    pub g: u8,
    pub b: u8,
}

// A family and a size, each of which may be absent.
#[derive(Clone, Copy)]
pub struct Font {
    pub has_family: bool,
    pub family: Span,
    pub has_size: bool,
    pub size: Size,
}

// A segment without its children: text, a break, a timestamp, or a wrapper with its data.
#[derive(Clone, Copy)]
pub enum Segment {
    Text(Span),
    Break,
    Timestamp(i64),
    Bold,
    Italic,
    Underline,
    Strike,
    Color(Rgb),
    Font(Font),
}

// Is the font in row i one?
#[tactic(auto, unfolding(crate::specs::Meaning::is_font, crate::specs::Tables::cell))]
fn is_font(t: &Tables<'_>, i: usize) -> bool
    requires { i * 6 + 6 ≤ length t.now.segments.now }
    ensures { result ≡ is_font t.now.segments.now t.now.strings.now t.now.texts.now i }
{
    let at = i * SEGMENT_CELLS;
    let marks = t.segments[at + 4];
    let family = (marks % 2) as usize;
    let place = scan::get(t.segments, at + 2);
    is_optional(t.strings, family, place, scan::get(t.segments, at + 3))
        && crate::marks::is_marked(marks, t.segments[at + 5])
}

// Is row i a segment, whatever stands inside it?
fn is_segment(t: &Tables<'_>, i: usize) -> bool
    requires { i * 6 + 6 ≤ length t.now.segments.now }
    ensures { result ≡ is_segment t.now.segments.now t.now.strings.now t.now.texts.now i }
{
    let at = i * SEGMENT_CELLS;
    match t.segments[at] {
        TEXT => {
            let place = scan::get(t.segments, at + 2);
            let len = scan::get(t.segments, at + 3);
            t.segments[at + 1] == 1 && is_span(t.texts, place, len)
        }
        BREAK | TIMESTAMP => t.segments[at + 1] == 1,
        BOLD..=STRIKE => true,
        COLOR => crate::cells::are_three(t.segments, at + 2),
        FONT => is_font(t, i),
        _ => false,
    }
}

// Are the n rows from row `from` on segments, nested at most `room`?
pub fn are_segments(t: &Tables<'_>, from: usize, n: usize, room: usize) -> bool
    requires { (from + n) * 6 ≤ length t.now.segments.now }
    ensures { result ≡ are_segments t.now.segments.now t.now.strings.now t.now.texts.now room n from }
{
    if room == 0 {
        return n == 0;
    }
    let end = from + n;
    let mut i = from;
    while i < end {
        if !is_segment(t, i) {
            return false;
        }
        let rows = scan::get(t.segments, i * SEGMENT_CELLS + 1);
        if rows == 0 {
            return false;
        }
        if end - i < rows {
            return false;
        }
        if 1 < rows && !are_segments(t, i + 1, rows - 1, room - 1) {
            return false;
        }
        i += rows;
    }
    true
}

// The font in row i.
fn font_at(segments: &[u32], i: usize) -> Font
    requires { i * 6 + 6 ≤ length segments.now }
    ensures { result ≡ font_at segments.now i }
{
    let at = i * SEGMENT_CELLS;
    let marks = segments[at + 4];
    let has = marks % 2 == 1;
    let family = if has {
        crate::parts::span_at(segments, at + 2)
    } else {
        Span { place: 0, len: 0 }
    };
    Font {
        has_family: has,
        family,
        has_size: marks / 2 % 4 != 0,
        size: crate::marks::marked_size(marks),
    }
}

// The segment in row i, without its children. Its kind is one of those above.
pub fn segment_at(segments: &[u32], i: usize) -> Segment
    requires { (i * 6 + 6 ≤ length segments.now) × (get_or segments.now (i * 6) 0 ≡ 8 → are_three segments.now (i * 6 + 2) ≡ true) }
    ensures { result ≡ segment_at segments.now i }
{
    let at = i * SEGMENT_CELLS;
    match segments[at] {
        TEXT => Segment::Text(Span {
            place: scan::get(segments, at + 2),
            len: scan::get(segments, at + 3),
        }),
        BREAK => Segment::Break,
        TIMESTAMP => Segment::Timestamp(crate::marks::time_from(
            segments[at + 2],
            segments[at + 3],
        )),
        BOLD => Segment::Bold,
        ITALIC => Segment::Italic,
        UNDERLINE => Segment::Underline,
        STRIKE => Segment::Strike,
        COLOR => Segment::Color(Rgb {
            r: segments[at + 2] as u8,
            g: segments[at + 3] as u8,
            b: segments[at + 4] as u8,
        }),
        _ => Segment::Font(font_at(segments, i)),
    }
}
