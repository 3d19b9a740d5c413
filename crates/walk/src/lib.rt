#![tactic(auto)]
// A cue's text, row by row: what stands inside a wrapper has rows of its own, directly after it.
mod text_rows;

ghost use Rattle.std.specs.Prelude.{◌≡◌, ◌+◌, ◌*◌, ◌≤◌, ◌<◌, length};
ghost use Rattle.scan.specs.Posts.{Wrote, WroteInPart};
ghost use Rattle.track.specs.Meaning.{all_rows};
ghost use Rattle.walk.specs.Text.{row_text, rows_text, row_within_of};

pub use text_rows::TextRows;
use track::{BREAK, SEGMENT_CELLS, TEXT};
use tree::BYTES;

// Row i, if it is a text, has its bytes within the table of texts.
#[tactic(auto, unfolding(crate::specs::Text::row_within_of, track::specs::Tables::cell))]
fn row_within(segments: &[u32], i: usize) -> bool
    requires { i * 6 + 6 ≤ length segments.now }
    ensures { result ≡ row_within_of segments.now i }
{
    let row = i * SEGMENT_CELLS;
    if segments[row] != TEXT {
        return true;
    }
    let place = scan::get(segments, row + 2);
    let len = scan::get(segments, row + 3);
    place <= BYTES && len <= BYTES - place
}

// So have the n rows from row `from` on.
pub fn rows_within(segments: &[u32], from: usize, n: usize) -> bool
    requires { (from + n) * 6 ≤ length segments.now }
    ensures { result ≡ all_rows (row_within_of segments.now) n from }
{
    for i in from..from + n {
        if !row_within(segments, i) {
            return false;
        }
    }
    true
}

// The text of row i by itself: its bytes, or a line feed for a break; wrappers and timestamps have none.
fn row_text(rows: &TextRows<'_>, i: usize, out: &mut [u8], at: usize) -> Option<usize>
    requires { (rows.now.first ≤ i) × (i < rows.now.first + rows.now.many) × (at ≤ length out.old) }
    ensures { Wrote (row_text rows.now.texts.now rows.now.segments.now i) at out.old out.new result }
{
    let row = i * SEGMENT_CELLS;
    match rows.segments[row] {
        TEXT => {
            let start = scan::get(rows.segments, row + 2);
            let end = start + scan::get(rows.segments, row + 3);
            scan::append(out, at, &rows.texts[start..end])
        }
        BREAK => scan::append(out, at, b"\n"),
        _ => Some(at),
    }
}

// The text of the rows, written at a place; or it does not fit.
pub fn plain_text(rows: &TextRows<'_>, out: &mut [u8], at: usize) -> Option<usize>
    requires { at ≤ length out.old }
    ensures { WroteInPart (rows_text rows.now.texts.now rows.now.segments.now rows.now.many rows.now.first) at out.old out.new result }
{
    // a copy, which no byte that is written can change: the tables' places then stay in registers
    let here = *rows;
    let mut to = at;
    for i in here.first..here.first + here.many {
        to = row_text(&here, i, out, to)?;
    }
    Some(to)
}
