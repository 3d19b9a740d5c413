#![tactic(auto)]
// What a cue says: the call. It looks at the one cue, so that a loop over a film's cues costs what their texts do.
mod handed;

ghost use Rattle.std.specs.Prelude.{◌≡◌, length, replicate};
ghost use Rattle.walk.specs.Text.{rows_text};
ghost use Rattle.writer.specs.Calls.{Filled};
ghost use Rattle.spoken.specs.Promise.{tables, LongEnough, HasCue, PlainText};
ghost use Rattle.spoken.specs.Steps.{Decides};

pub use handed::Tables;
use track::{CUE_CELLS, CUES, HEAD_CELLS, SEGMENT_CELLS, SEGMENTS};
use tree::{BYTES, Refusal};
use walk::TextRows;

const CUE_TABLE: usize = CUES * CUE_CELLS;

const SEGMENT_TABLE: usize = SEGMENTS * SEGMENT_CELLS;

// Are the tables as long as they must be?
fn are_long(t: &Tables<'_>) -> bool
    ensures { Decides (LongEnough (tables t.now.head.now t.now.cues.now t.now.segments.now t.now.texts.now)) result }
{
    HEAD_CELLS <= t.head.len()
        && CUE_TABLE <= t.cues.len()
        && SEGMENT_TABLE <= t.segments.len()
        && BYTES <= t.texts.len()
}

// Is the cue there, with its rows and their texts?
fn has_cue(t: &Tables<'_>, index: usize) -> bool
    requires { LongEnough (tables t.now.head.now t.now.cues.now t.now.segments.now t.now.texts.now) }
    ensures { Decides (HasCue (tables t.now.head.now t.now.cues.now t.now.segments.now t.now.texts.now) index) result }
{
    if scan::get(t.head, 3) <= index || CUES <= index {
        return false;
    }
    let row = index * CUE_CELLS;
    let first = scan::get(t.cues, row + 7);
    let n = scan::get(t.cues, row + 8);
    if SEGMENTS < first || SEGMENTS - first < n {
        return false;
    }
    walk::rows_within(t.segments, first, n)
}

// The text of the rows, written into bytes that are clear.
fn fill(rows: &TextRows<'_>, out: &mut [u8]) -> Result<usize, Refusal>
    requires { out.old ≡ replicate (length out.old) 0 }
    ensures { Filled (rows_text rows.now.texts.now rows.now.segments.now rows.now.many rows.now.first) (length out.old) result out.new }
{
    let end = writer::limit(out.len());
    match walk::plain_text(rows, &mut out[..end], 0) {
        Some(k) => Ok(k),
        None => {
            scan::clear_bytes(out);
            writer::refused(18)
        }
    }
}

// The text of the cue of this index, in `out`.
pub fn plain_text(t: &Tables<'_>, index: usize, out: &mut [u8]) -> Result<usize, Refusal>
    ensures { PlainText (tables t.now.head.now t.now.cues.now t.now.segments.now t.now.texts.now) index out.old result out.new }
{
    scan::clear_bytes(out);
    if !are_long(t) {
        return writer::refused(1);
    }
    if !has_cue(t, index) {
        return writer::refused(17);
    }
    let row = index * CUE_CELLS;
    let rows = TextRows {
        segments: t.segments,
        texts: t.texts,
        first: scan::get(t.cues, row + 7),
        many: scan::get(t.cues, row + 8),
    };
    fill(&rows, out)
}
