// Writing a text so that its markup bytes stand as references.
ghost use Rattle.std.specs.Prelude.{◌≡◌, Bool, true, false, ◌≤◌, ◌<◌, length, get_or};
ghost use Rattle.scan.specs.Posts.{Ends, Wrote, WroteInPart};
ghost use Rattle.entities.specs.Escape.{plain, escape_byte, escaped};
ghost use Rattle.entities.specs.Steps.{escaped_run};

// Does the byte stand for itself? A double quote mark does, but in an attribute's value.
fn is_plain(b: u8, quotes: bool) -> bool
    ensures { result ≡ plain quotes b }
{
    match b {
        b'&' | b'<' | b'>' => false,
        b'"' => !quotes,
        _ => true,
    }
}

// Where the run of bytes that stand for themselves ends.
#[tactic(auto, using(crate::proofs::Escapes::run_ends))]
fn plain_end(src: &[u8], pos: usize, quotes: bool) -> usize
    requires { pos ≤ length src.now }
    ensures { Ends (plain quotes) src.now pos result }
{
    for i in pos..src.len() {
        if !is_plain(src[i], quotes) {
            return i;
        }
    }
    src.len()
}

// The reference for a byte that does not stand for itself, written at a place.
fn append_reference(out: &mut [u8], at: usize, b: u8, quotes: bool) -> Option<usize>
    requires { (at ≤ length out.old) × (plain quotes b ≡ false) }
    ensures { Wrote (escape_byte quotes b) at out.old out.new result }
{
    match b {
        b'&' => scan::append(out, at, b"&amp;"),
        b'<' => scan::append(out, at, b"&lt;"),
        b'>' => scan::append(out, at, b"&gt;"),
        _ => scan::append(out, at, b"&quot;"),
    }
}

// A run of bytes that stand for themselves, and the reference for the byte after it, written at a place.
fn append_run(
    src: &[u8],
    pos: usize,
    end: usize,
    quotes: bool,
    out: &mut [u8],
    at: usize,
) -> Option<usize>
    requires { (pos ≤ end) × (end < length src.now) × (at ≤ length out.old) × (plain quotes (get_or src.now end 0) ≡ false) }
    ensures { WroteInPart (escaped_run quotes src.now pos end) at out.old out.new result }
{
    let next = scan::append(out, at, &src[pos..end])?;
    append_reference(out, next, src[end], quotes)
}

fn escape(src: &[u8], quotes: bool, out: &mut [u8], at: usize) -> Option<usize>
    requires { at ≤ length out.old }
    ensures { WroteInPart (escaped quotes src.now) at out.old out.new result }
{
    let mut from = 0;
    let mut to = at;
    loop {
        let end = plain_end(src, from, quotes);
        if src.len() <= end {
            return scan::append(out, to, &src[from..end]);
        }
        to = append_run(src, from, end, quotes, out, to)?;
        from = end + 1;
    }
}

// The text as it stands between tags.
pub fn escape_text(src: &[u8], out: &mut [u8], at: usize) -> Option<usize>
    requires { at ≤ length out.old }
    ensures { WroteInPart (escaped false src.now) at out.old out.new result }
{
    escape(src, false, out, at)
}

// The text as it stands in an attribute's value, between double quote marks.
pub fn escape_attr(src: &[u8], out: &mut [u8], at: usize) -> Option<usize>
    requires { at ≤ length out.old }
    ensures { WroteInPart (escaped true src.now) at out.old out.new result }
{
    escape(src, true, out, at)
}
