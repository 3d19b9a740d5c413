// Segments written, and rows shifted to make room for wrappers before rows that stand already.
ghost use Rattle.std.specs.Prelude.{◌≡◌, [], ◌∷◌, ◌+◌, ◌*◌, ◌≤◌, ◌<◌, ◌^◌, length};
ghost use Rattle.std.proofs.lemmas.List.Edits.{sets};
ghost use Rattle.scan.specs.Part.{part};
ghost use Rattle.track.specs.Layout.{font_cells, segment_cells};
ghost use Rattle.records.specs.Posts.{SmallSpan, SmallSegment, AddPost};
ghost use Rattle.records.specs.Siblings.{pulled, without_cells};

use track::{
    BOLD, BREAK, COLOR, FONT, Font, ITALIC, Rgb, SEGMENT_CELLS, SEGMENTS, STRIKE, Segment, Span,
    TEXT, TIMESTAMP, UNDERLINE,
};

// Kind and number of rows, with the other cells zero.
fn put_kind(segments: &mut [u32], at: usize, kind: u32, rows: usize)
    requires { (at + 6 ≤ length segments.old) × (rows < 2 ^ 32) }
    ensures { segments.new ≡ sets segments.old at (kind ∷ rows ∷ 0 ∷ 0 ∷ 0 ∷ 0 ∷ []) }
{
    segments[at] = kind;
    segments[at + 1] = rows as u32;
    for i in 2..SEGMENT_CELLS {
        segments[at + i] = 0;
    }
}

fn put_font(segments: &mut [u32], at: usize, x: Font)
    requires { (at + 4 ≤ length segments.old) × SmallSpan x.family }
    ensures { segments.new ≡ sets segments.old at (font_cells x) }
{
    let family = if x.has_family {
        x.family
    } else {
        Span { place: 0, len: 0 }
    };
    crate::cells::put_span(segments, at, family);
    segments[at + 2] = crate::cells::flag_cell(x.has_family)
        + track::size_marks(x.has_size, x.size);
    segments[at + 3] = track::size_bits(x.has_size, x.size);
}

// The cells of a segment's row.
fn put_cells(segments: &mut [u32], at: usize, rows: usize, s: Segment)
    requires { (at + 6 ≤ length segments.old) × (rows < 2 ^ 32) × SmallSegment s }
    ensures { segments.new ≡ sets segments.old at (segment_cells s rows) }
{
    match s {
        Segment::Text(x) => {
            put_kind(segments, at, TEXT, rows);
            crate::cells::put_span(segments, at + 2, x);
        }
        Segment::Break => put_kind(segments, at, BREAK, rows),
        Segment::Timestamp(t) => {
            put_kind(segments, at, TIMESTAMP, rows);
            let bits = track::time_bits(t);
            segments[at + 2] = (bits % 4294967296) as u32;
            segments[at + 3] = (bits / 4294967296) as u32;
        }
        Segment::Bold => put_kind(segments, at, BOLD, rows),
        Segment::Italic => put_kind(segments, at, ITALIC, rows),
        Segment::Underline => put_kind(segments, at, UNDERLINE, rows),
        Segment::Strike => put_kind(segments, at, STRIKE, rows),
        Segment::Color(c) => {
            put_kind(segments, at, COLOR, rows);
            segments[at + 2] = c.r as u32;
            segments[at + 3] = c.g as u32;
            segments[at + 4] = c.b as u32;
        }
        Segment::Font(x) => {
            put_kind(segments, at, FONT, rows);
            put_font(segments, at + 2, x);
        }
    }
}

// The segment in row i, with so many rows in its subtree.
pub fn put_segment(segments: &mut [u32], i: usize, rows: usize, s: Segment)
    requires { (i * 6 + 6 ≤ length segments.old) × (rows < 2 ^ 32) × SmallSegment s }
    ensures { segments.new ≡ sets segments.old (i * 6) (segment_cells s rows) }
{
    put_cells(segments, i * SEGMENT_CELLS, rows, s);
}

// A text more, where there are n segments: a row of its own, written without a look at its kind.
pub fn add_text(segments: &mut [u32], n: usize, x: Span) -> Option<usize>
    requires { (98304 ≤ length segments.old) × SmallSpan x }
    ensures { AddPost 16384 6 (segment_cells (Segment.Text x) 1) segments.old segments.new n result }
{
    if SEGMENTS <= n {
        return None;
    }
    put_kind(segments, n * SEGMENT_CELLS, TEXT, 1);
    crate::cells::put_span(segments, n * SEGMENT_CELLS + 2, x);
    Some(n + 1)
}

// A break more.
pub fn add_break(segments: &mut [u32], n: usize) -> Option<usize>
    requires { 98304 ≤ length segments.old }
    ensures { AddPost 16384 6 (segment_cells Segment.Break 1) segments.old segments.new n result }
{
    if SEGMENTS <= n {
        return None;
    }
    put_kind(segments, n * SEGMENT_CELLS, BREAK, 1);
    Some(n + 1)
}

// The six cells from one place on written at another: all are read first, so that they move as a block.
fn move_row(cells: &mut [u32], from: usize, to: usize)
    requires { (from + 6 ≤ length cells.old) × (to + 6 ≤ length cells.old) }
    ensures { cells.new ≡ sets cells.old to (part from (from + 6) cells.old) }
{
    let a = cells[from];
    let b = cells[from + 1];
    let c = cells[from + 2];
    let d = cells[from + 3];
    let e = cells[from + 4];
    let f = cells[from + 5];
    cells[to] = a;
    cells[to + 1] = b;
    cells[to + 2] = c;
    cells[to + 3] = d;
    cells[to + 4] = e;
    cells[to + 5] = f;
}

// Rows from `at` up to `end`, moved by so many rows: room for wrappers around them.
pub fn shift_segments(segments: &mut [u32], at: usize, end: usize, by: usize)
    requires { (at ≤ end) × ((end + by) * 6 ≤ length segments.old) }
    ensures { segments.new ≡ sets segments.old ((at + by) * 6) (part (at * 6) (end * 6) segments.old) }
{
    let mut i = end;
    while at < i {
        i -= 1;
        move_row(segments, i * SEGMENT_CELLS, (i + by) * SEGMENT_CELLS);
    }
}

// The cells from `at + by` up to `end` moved down by `by`: `copy_within` would call `memmove`.
fn pull_cells(cells: &mut [u32], at: usize, end: usize, by: usize)
    requires { (at + by ≤ end) × (end ≤ length cells.old) }
    ensures { cells.new ≡ pulled at end by cells.old }
{
    for i in at + by..end {
        cells[i - by] = cells[i];
    }
}

// Row `at` dropped: the rows after it, up to `end`, stand one row earlier, and the last row is cleared.
pub fn drop_segment(segments: &mut [u32], at: usize, end: usize)
    requires { (at < end) × (end * 6 ≤ length segments.old) }
    ensures { segments.new ≡ without_cells 0 6 (at * 6) (end * 6) segments.old }
{
    pull_cells(
        segments,
        at * SEGMENT_CELLS,
        end * SEGMENT_CELLS,
        SEGMENT_CELLS,
    );
    put_kind(segments, end * SEGMENT_CELLS - SEGMENT_CELLS, 0, 0);
}
