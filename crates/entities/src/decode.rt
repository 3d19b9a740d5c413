// Reading the references of a text.
ghost use Rattle.std.specs.Prelude.{◌≡◌, ◌+◌, ◌-◌, ◌≤◌, ◌<◌, length, get_or};
ghost use Rattle.scan.specs.Posts.{Appended};
ghost use Rattle.entities.specs.Decode.{decoded};
ghost use Rattle.entities.specs.Steps.{Stepped};

// Where the next byte is read, and where the next byte is written.
#[derive(Clone, Copy)]
pub struct Step {
    pub from: usize,
    pub to: usize,
}

// What stands at an `&`, read and written: a reference's character, or the `&` itself.
fn decode_reference(src: &[u8], pos: usize, out: &mut [u8], at: usize) -> Step
    requires { (pos < length src.now) × (get_or src.now pos 0 ≡ 38) × (at + (length src.now - pos) ≤ length out.old) }
    ensures { Stepped src.now pos at out.old out.new result.from result.to }
{
    match crate::reference::reference(src, pos + 1) {
        Some((c, next)) => {
            let to = utf8::put_char(c, out, at);
            Step { from: next, to }
        }
        None => {
            out[at] = b'&';
            Step {
                from: pos + 1,
                to: at + 1,
            }
        }
    }
}

// The text with its references read, written at a place; the answer is the place after it. It is
// never longer than the text.
pub fn decode_entities(src: &[u8], out: &mut [u8], at: usize) -> usize
    requires { at + length src.now ≤ length out.old }
    ensures { Appended (decoded src.now) at out.old out.new result }
{
    let mut from = 0;
    let mut to = at;
    while from < src.len() {
        let end = scan::find_byte(src, from, b'&');
        to = scan::copy(&src[from..end], out, to);
        from = end;
        if end < src.len() {
            let step = decode_reference(src, end, out, to);
            from = step.from;
            to = step.to;
        }
    }
    to
}
