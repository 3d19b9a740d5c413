// Start tags: attributes and their values.
ghost use Rattle.std.specs.Prelude.{◌≡◌, [], true, false, ◌+◌, ◌≤◌, ◌<◌, length, get_or};
ghost use Rattle.scan.specs.Bytes.{blank, name_byte};
ghost use Rattle.scan.specs.Posts.{Ends};
ghost use Rattle.tree.specs.Read.{quote_byte, attr_at, value_at, tag_from, start_at};
ghost use Rattle.tree.specs.Posts.{PairPost, TagPost, shut_at};

use crate::answers::{Refusal, Spot, Tag};
use crate::rows::MOST;
use scan::Class;

#[tactic(auto, unfolding(crate::specs::Read::quote_byte))]
fn is_quote(b: u8) -> bool
    ensures { result ≡ quote_byte b }
{
    matches!(b, b'"' | b'\'')
}

// The value after the `=` at eq, of an attribute at pos whose name ends at e.
fn parse_value(
    src: &[u8],
    attrs: &mut [u32],
    pos: usize,
    e: usize,
    eq: usize,
    count: usize,
) -> Result<usize, Refusal>
    requires { (length src.now ≤ 65536) × (32768 ≤ length attrs.old) × (pos ≤ e) × (e ≤ eq) × (eq < length src.now) × (count < 8192) }
    ensures { PairPost (value_at src.now pos e eq) src.now attrs.old attrs.new pos count result }
{
    let v = scan::over(src, eq + 1, Class::Blank);
    if src.len() <= v {
        return Err(Refusal::new(9, eq));
    }
    let quote = src[v];
    if is_quote(quote) {
        let z = scan::find_byte(src, v + 1, quote);
        crate::rows::put_attr(attrs, count, pos, e - pos, v + 1, z - (v + 1));
        if z < src.len() {
            return Ok(scan::over(src, z + 1, Class::Blank));
        }
        return Ok(z);
    }
    let z = scan::over(src, v, Class::Name);
    crate::rows::put_attr(attrs, count, pos, e - pos, v, z - v);
    Ok(scan::over(src, z, Class::Blank))
}

// The attribute at pos, where no blank, `>` or `/` stands.
fn parse_attr(src: &[u8], attrs: &mut [u32], pos: usize, count: usize) -> Result<usize, Refusal>
    requires { (length src.now ≤ 65536) × (32768 ≤ length attrs.old) × (pos < length src.now) × (name_byte (get_or src.now pos 0) ≡ true)
        × (count < 8192) }
    ensures { PairPost (attr_at src.now pos) src.now attrs.old attrs.new pos count result }
{
    let e = scan::over(src, pos, Class::AttrName);
    let q = scan::over(src, e, Class::Blank);
    if scan::starts_with(src, q, b"=") {
        return parse_value(src, attrs, pos, e, q, count);
    }
    crate::rows::put_attr(attrs, count, pos, e - pos, e, 0);
    Ok(q)
}

// The end of a start tag from its `/` on.
fn parse_shut(src: &[u8], at: usize, n: usize) -> Result<Tag, Refusal>
    requires { at < length src.now }
    ensures { result ≡ shut_at src.now at n }
{
    let q = scan::over(src, at + 1, Class::Blank);
    if scan::starts_with(src, q, b">") {
        return Ok(Tag::Shut(Spot {
            pos: q + 1,
            attrs: n,
        }));
    }
    Err(Refusal::new(8, at))
}

// The attributes from pos on, where no blank stands, up to `>` or `/`.
fn parse_tag(src: &[u8], attrs: &mut [u32], pos: usize, count: usize) -> Result<Tag, Refusal>
    requires { (length src.now ≤ 65536) × (32768 ≤ length attrs.old) × (pos ≤ length src.now)
        × (pos < length src.now → blank (get_or src.now pos 0) ≡ false) × (count ≤ 8192) }
    ensures { TagPost (tag_from src.now pos (record { list = []; count = count })) src.now attrs.old
        attrs.new pos count result }
{
    let mut at = pos;
    let mut n = count;
    while at < src.len() {
        let b = src[at];
        if b == b'>' {
            return Ok(Tag::Open(Spot {
                pos: at + 1,
                attrs: n,
            }));
        }
        if b == b'/' {
            return parse_shut(src, at, n);
        }
        if MOST <= n {
            return Err(Refusal::new(7, at));
        }
        at = parse_attr(src, attrs, at, n)?;
        n += 1;
    }
    Err(Refusal::new(10, at))
}

// The start tag of the element at pos, from the end e of its name on.
pub fn parse_start(
    src: &[u8],
    attrs: &mut [u32],
    pos: usize,
    e: usize,
    count: usize,
) -> Result<Tag, Refusal>
    requires { (length src.now ≤ 65536) × (32768 ≤ length attrs.old) × (pos < length src.now) × Ends name_byte src.now (pos + 1) e
        × (count ≤ 8192) }
    ensures { TagPost (start_at src.now pos e count) src.now attrs.old attrs.new e count result }
{
    if e == pos + 1 {
        return Err(Refusal::new(6, pos));
    }
    let from = scan::over_long(src, e, Class::Blank);
    parse_tag(src, attrs, from, count)
}
