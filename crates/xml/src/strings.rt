// Entities: a pass over the rows of nodes and one over those of attributes write each string at its
// place, and set the lengths of texts and values to what they have then.
ghost use Rattle.std.specs.Prelude.{◌≡◌, [], ◌∷◌, ℕ, ◌+◌, ◌*◌, ◌-◌, ◌≤◌, ◌<◌, length, take, drop};
ghost use Rattle.std.proofs.lemmas.List.Edits.{sets};
ghost use Rattle.scan.specs.Bytes.{other};
ghost use Rattle.scan.specs.Posts.{Appended, Passes};
ghost use Rattle.entities.specs.Decode.{decoded};
ghost use Rattle.xml.specs.Steps.{NodeReady, node_place, node_bytes, nodes_read, node_strings_read, AttrReady, value_bytes, attrs_read};
ghost use Rattle.xml.specs.Steps.{attr_written, attr_strings_read};

use tree::{ATTR_CELLS, ELEMENT, NODE_CELLS, TEXT};

// A part of the text in which no `&` stands.
#[derive(Clone, Copy)]
pub struct Plain {
    pub from: usize,
    pub end: usize,
}

// Such a part that has the place, if p has not: up to the next `&`. Strings stand in the order of their rows, so the text is searched
// once for all of them.
fn plain_at(src: &[u8], p: Plain, at: usize) -> Plain
    requires { (at ≤ length src.now) × Passes (other 38) src.now p.from p.end }
    ensures { (result.from ≤ at) × (at ≤ result.end) × Passes (other 38) src.now result.from result.end }
{
    if p.from <= at && at <= p.end {
        return p;
    }
    let end = scan::find_far(src, at, b'&');
    Plain { from: at, end }
}

// The string from start up to stop with its entities read, written at start. In a part without `&` there is none.
fn decode(src: &[u8], p: Plain, start: usize, stop: usize, strings: &mut [u8]) -> usize
    requires { (start ≤ stop) × (stop ≤ length src.now) × (length src.now ≤ length strings.old)
        × Passes (other 38) src.now p.from p.end }
    ensures { Appended (decoded (take (stop - start) (drop start src.now))) start strings.old strings.new result }
{
    if stop <= p.end && p.from <= start {
        return scan::copy(&src[start..stop], strings, start);
    }
    entities::decode_entities(&src[start..stop], strings, start)
}

// The string of node k: an element's name, a text with its entities read, a section.
fn read_node(src: &[u8], p: Plain, nodes: &mut [u32], strings: &mut [u8], k: usize)
    requires { NodeReady src.now nodes.old strings.old k × Passes (other 38) src.now p.from p.end }
    ensures nodes_after { nodes.new ≡ sets nodes.old (k * 6 + 3) (length (node_bytes src.now nodes.old k) ∷ []) }
    ensures strings_after { strings.new ≡ sets strings.old (node_place nodes.old k)
        (node_bytes src.now nodes.old k) }
{
    let at = k * NODE_CELLS;
    let kind = nodes[at];
    let place = scan::get(nodes, at + 2);
    let len = scan::get(nodes, at + 3);
    let start = if kind == ELEMENT { place + 1 } else { place };
    let stop = start + len;
    let end = if kind == TEXT {
        decode(src, p, start, stop, strings)
    } else {
        scan::copy(&src[start..stop], strings, start)
    };
    scan::put(nodes, at + 3, end - start);
}

// The strings of the first count nodes.
pub fn read_nodes(src: &[u8], nodes: &mut [u32], strings: &mut [u8], count: usize)
    requires { (k : ℕ) → k < count → NodeReady src.now nodes.old strings.old k }
    ensures nodes_after { nodes.new ≡ nodes_read src.now nodes.old count }
    ensures strings_after { strings.new ≡ node_strings_read src.now nodes.old strings.old count }
{
    let mut p = Plain { from: 0, end: 0 };
    for k in 0..count {
        p = plain_at(src, p, scan::get(nodes, k * NODE_CELLS + 2));
        read_node(src, p, nodes, strings, k);
    }
}

// The name of attribute k, and its value with its entities read.
fn read_attr(src: &[u8], p: Plain, attrs: &mut [u32], strings: &mut [u8], k: usize)
    requires { AttrReady src.now attrs.old strings.old k × Passes (other 38) src.now p.from p.end }
    ensures attrs_after { attrs.new ≡ sets attrs.old (k * 4 + 3)
        (length (value_bytes src.now attrs.old k) ∷ []) }
    ensures strings_after { strings.new ≡ attr_written src.now attrs.old strings.old k }
{
    let at = k * ATTR_CELLS;
    let name = scan::get(attrs, at);
    let name_end = name + scan::get(attrs, at + 1);
    scan::copy(&src[name..name_end], strings, name);
    let value = scan::get(attrs, at + 2);
    let value_end = value + scan::get(attrs, at + 3);
    let end = decode(src, p, value, value_end, strings);
    scan::put(attrs, at + 3, end - value);
}

// The strings of the first count attributes.
pub fn read_attrs(src: &[u8], attrs: &mut [u32], strings: &mut [u8], count: usize)
    requires { (k : ℕ) → k < count → AttrReady src.now attrs.old strings.old k }
    ensures attrs_after { attrs.new ≡ attrs_read src.now attrs.old count }
    ensures strings_after { strings.new ≡ attr_strings_read src.now attrs.old strings.old count }
{
    let mut p = Plain { from: 0, end: 0 };
    for k in 0..count {
        p = plain_at(src, p, scan::get(attrs, k * ATTR_CELLS + 2));
        read_attr(src, p, attrs, strings, k);
    }
}
