// Nodes: texts, sections and elements. The readers of a node, an element and its content call each
// other; comments are skipped by a loop, so that only elements deepen the stack.
ghost use Rattle.std.specs.Prelude.{◌≡◌, List, ℕ, ◌+◌, ◌≤◌, ◌<◌, length, get_or};
ghost use Rattle.scan.specs.Marks.{starts_at};
ghost use Rattle.scan.specs.Posts.{Passed};
ghost use Rattle.tree.specs.Read.{comment_end, text_at, section_at, node_at_of, element_of, content_of};
ghost use Rattle.tree.specs.Posts.{Ready, Opened, Opens, Skipped, StepPost, ContentPost, closed_at};

use crate::answers::{Cursor, Refusal, Step, Tag};
use crate::rows::{ELEMENT, MOST, NodeRow, SECTION, TEXT, put_node};
use scan::Class;

// Does a comment open at the place?
fn opens(src: &[u8], at: usize) -> bool
    requires { at ≤ length src.now }
    ensures { Opens src.now at result }
{
    matches!(&src[at..], [b'<', b'!', b'-', b'-', ..])
}

// Does `-->` stand at the place?
fn closes(src: &[u8], at: usize) -> bool
    requires { at + 3 ≤ length src.now }
    ensures { result ≡ starts_at src.now at comment_end }
{
    src[at + 2] == b'>' && src[at + 1] == b'-' && src[at] == b'-'
}

// The place after the comment at pos, or the length. It is short as a rule: 16 places are looked at one by one, four to a turn.
fn comment_end(src: &[u8], pos: usize) -> usize
    requires { Opened src.now pos }
    ensures { Passed comment_end src.now pos result }
{
    if src.len() - pos < 23 {
        return scan::find_past(&src[0..], pos, b"-->");
    }
    let near = pos + 18;
    let mut i = pos + 2;
    while i < near {
        if closes(src, i) {
            return i + 3;
        }
        if closes(src, i + 1) {
            return i + 4;
        }
        if closes(src, i + 2) {
            return i + 5;
        }
        if closes(src, i + 3) {
            return i + 6;
        }
        i += 4;
    }
    scan::find_past(&src[0..], i, b"-->")
}

// The place after the comments at pos.
fn skip_comments(src: &[u8], pos: usize) -> usize
    requires { pos ≤ length src.now }
    ensures { Skipped src.now pos result }
{
    let mut i = pos;
    while opens(src, i) {
        i = comment_end(src, i);
    }
    i
}

// The text at pos, where no `<` stands.
fn parse_text(
    src: &[u8],
    nodes: &mut [u32],
    pos: usize,
    k: usize,
    a: usize,
) -> Result<Step, Refusal>
    requires { (length src.now ≤ 65536) × (49152 ≤ length nodes.old) × (pos < length src.now) × (get_or src.now pos 0 ≡ 60 → ⊥)
        × (a ≤ 8192) }
    ensures { (u : List ℕ) → StepPost (text_at src.now pos k a) src.now nodes.old nodes.new u u
        pos k a result }
{
    if MOST <= k {
        return Err(Refusal::new(5, pos));
    }
    let e = scan::over(src, pos, Class::Text);
    let row = NodeRow {
        kind: TEXT,
        end: k + 1,
        place: pos,
        len: e - pos,
        first: 0,
        many: 0,
    };
    put_node(nodes, k, row);
    Ok(Step::Node(Cursor {
        pos: e,
        nodes: k + 1,
        attrs: a,
    }))
}

// The CDATA section that opens at pos.
fn parse_section(
    src: &[u8],
    nodes: &mut [u32],
    pos: usize,
    k: usize,
    a: usize,
) -> Result<Step, Refusal>
    requires { (length src.now ≤ 65536) × (49152 ≤ length nodes.old) × (pos + 9 ≤ length src.now) × (a ≤ 8192) }
    ensures { (u : List ℕ) → StepPost (section_at src.now pos k a) src.now nodes.old nodes.new u u
        pos k a result }
{
    if MOST <= k {
        return Err(Refusal::new(5, pos));
    }
    let start = pos + 9;
    let e = scan::find_seq(src, start, b"]]>");
    let row = NodeRow {
        kind: SECTION,
        end: k + 1,
        place: start,
        len: e - start,
        first: 0,
        many: 0,
    };
    put_node(nodes, k, row);
    let q = if e < src.len() { e + 3 } else { e };
    Ok(Step::Node(Cursor {
        pos: q,
        nodes: k + 1,
        attrs: a,
    }))
}

// The close tag at pos.
fn parse_close(src: &[u8], pos: usize, k: usize, a: usize) -> Result<Cursor, Refusal>
    requires { pos ≤ length src.now }
    ensures { result ≡ closed_at src.now pos k a }
{
    let g = scan::find_byte(src, pos, b'>');
    if src.len() <= g {
        return Err(Refusal::new(11, pos));
    }
    Ok(Cursor {
        pos: g + 1,
        nodes: k,
        attrs: a,
    })
}

// The node at pos, comments skipped; k nodes and a attributes were read before, and room more
// elements may be open.
#[cycle(parse_children_parse_element_parse_node)]
pub fn parse_node(
    src: &[u8],
    nodes: &mut [u32],
    attrs: &mut [u32],
    pos: usize,
    k: usize,
    a: usize,
    room: usize,
) -> Result<Step, Refusal>
    requires { Ready src.now nodes.old attrs.old pos k a }
    ensures { StepPost (node_at_of src.now (element_of room src.now) pos k a) src.now nodes.old
        nodes.new attrs.old attrs.new pos k a result }
{
    let at = skip_comments(src, pos);
    if src.len() <= at {
        return Ok(Step::Nothing(at));
    }
    if src[at] != b'<' {
        return parse_text(src, nodes, at, k, a);
    }
    if scan::starts_with(src, at, b"<![CDATA[") {
        return parse_section(src, nodes, at, k, a);
    }
    if scan::starts_with(src, at, b"</") {
        return Ok(Step::Nothing(at));
    }
    parse_element(src, nodes, attrs, at, k, a, room)
}

// The element at pos. Its row is written after its content.
#[cycle(parse_children_parse_element_parse_node)]
fn parse_element(
    src: &[u8],
    nodes: &mut [u32],
    attrs: &mut [u32],
    pos: usize,
    k: usize,
    a: usize,
    room: usize,
) -> Result<Step, Refusal>
    requires { Ready src.now nodes.old attrs.old pos k a × (pos < length src.now) }
    ensures { StepPost (element_of room src.now pos k a) src.now nodes.old nodes.new
        attrs.old attrs.new pos k a result }
{
    if room == 0 {
        return Err(Refusal::new(4, pos));
    }
    if MOST <= k {
        return Err(Refusal::new(5, pos));
    }
    let start = pos + 1;
    let e = scan::over_long(src, start, Class::Name);
    match crate::attrs::parse_start(src, attrs, pos, e, a)? {
        Tag::Shut(t) => {
            let row = NodeRow {
                kind: ELEMENT,
                end: k + 1,
                place: pos,
                len: e - start,
                first: a,
                many: t.attrs - a,
            };
            put_node(nodes, k, row);
            Ok(Step::Node(Cursor {
                pos: t.pos,
                nodes: k + 1,
                attrs: t.attrs,
            }))
        }
        Tag::Open(t) => {
            let c = parse_children(src, nodes, attrs, t.pos, k + 1, t.attrs, room - 1)?;
            let row = NodeRow {
                kind: ELEMENT,
                end: c.nodes,
                place: pos,
                len: e - start,
                first: a,
                many: t.attrs - a,
            };
            put_node(nodes, k, row);
            Ok(Step::Node(c))
        }
    }
}

// The content of an element, from a place after its start tag on.
#[cycle(parse_children_parse_element_parse_node)]
fn parse_children(
    src: &[u8],
    nodes: &mut [u32],
    attrs: &mut [u32],
    from: usize,
    k0: usize,
    a0: usize,
    room: usize,
) -> Result<Cursor, Refusal>
    requires { Ready src.now nodes.old attrs.old from k0 a0 }
    ensures { ContentPost (content_of room src.now from k0 a0) src.now nodes.old nodes.new
        attrs.old attrs.new from k0 a0 result }
{
    let mut pos = from;
    let mut k = k0;
    let mut a = a0;
    while pos < src.len() {
        if scan::starts_with(src, pos, b"</") {
            return parse_close(src, pos, k, a);
        }
        match parse_node(src, nodes, attrs, pos, k, a, room)? {
            Step::Node(c) => {
                pos = c.pos;
                k = c.nodes;
                a = c.attrs;
            }
            Step::Nothing(q) => {
                return Ok(Cursor {
                    pos: q,
                    nodes: k,
                    attrs: a,
                });
            }
        }
    }
    Ok(Cursor {
        pos,
        nodes: k,
        attrs: a,
    })
}
