// The public call. All of `out` is cleared first, and again on a refusal.
ghost use Rattle.std.specs.Prelude.{Some, ◌≤◌, ◌≡◌, length, replicate};
ghost use Rattle.track.specs.Handed.{lists};
ghost use Rattle.track.specs.Meaning.{track_at};
ghost use Rattle.written.specs.Written.{written_of};
ghost use Rattle.writer.specs.Puts.{Puts, Writes};
ghost use Rattle.writer.specs.Calls.{Filled};
ghost use Rattle.writer.specs.Promise.{whole_text, Promise};
ghost use Rattle.document.specs.Roots.{WholeReady};

use track::Tables;
use tree::Refusal;
use writer::Out;

// The whole text.
fn write_document(t: &Tables<'_>, out: &mut Out<'_>) -> Option<()>
    requires { WholeReady (lists t.now) }
    ensures { Writes (written_of (track_at (lists t.now))) out.old out.new result }
{
    out.put(b"<?xml version=\"1.0\" encoding=\"UTF-8\"?>\n")?;
    crate::root::write_root(t, out)?;
    let n = scan::get(t.head, 1);
    let m = scan::get(t.head, 2);
    crate::root::write_head(t, n, m, out)?;
    out.put(b"  <body>\n    <div>\n")?;
    let k = scan::get(t.head, 3);
    out.write_cues(t, k)?;
    out.put(b"    </div>\n  </body>\n</tt>\n")
}

// The same, from the start of the bytes on.
fn document_text(t: &Tables<'_>, bytes: &mut [u8]) -> Option<usize>
    requires { WholeReady (lists t.now) }
    ensures { Puts (written_of (track_at (lists t.now))) (Some 0) bytes.old bytes.new result }
{
    let mut out = Out { bytes, at: 0 };
    write_document(t, &mut out)?;
    Some(out.at)
}

// The whole text, written into bytes that are clear.
fn fill(t: &Tables<'_>, out: &mut [u8]) -> Result<usize, Refusal>
    requires { WholeReady (lists t.now) × (out.old ≡ replicate (length out.old) 0) }
    ensures { Filled (written_of (track_at (lists t.now))) (length out.old) result out.new }
{
    let end = writer::limit(out.len());
    match document_text(t, &mut out[..end]) {
        Some(n) => Ok(n),
        None => {
            scan::clear_bytes(out);
            writer::refused(18)
        }
    }
}

// The track as text, in `out` (the Rust's `write`).
pub fn write(t: &Tables<'_>, out: &mut [u8]) -> Result<usize, Refusal>
    ensures { Promise whole_text (lists t.now) out.old result out.new }
{
    scan::clear_bytes(out);
    track::check_track(t)?;
    fill(t, out)
}
