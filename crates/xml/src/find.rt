// What is asked of a tree in its tables.
ghost use Rattle.std.specs.Prelude.{◌≡◌, ◌+◌, ◌*◌, ◌≤◌, length};
ghost use Rattle.scan.specs.Names.{same_folded};
ghost use Rattle.xml.specs.Find.{Siblings, OfSiblings, find_row, is_element, HasRow, element_row};
ghost use Rattle.xml.specs.Find.{HasRows, Of, OfRows, NameFits, name_at, attribute_row, find_value};

use crate::attributes::Attributes;
use tree::{ATTR_CELLS, ELEMENT, NODE_CELLS};

// An attribute: its place in the text, and the place and length of its value in the strings.
#[derive(Clone, Copy)]
pub struct Attribute {
    pub at: usize,
    pub place: usize,
    pub len: usize,
}

// An element: its place in the text, its name in the strings, the row after its subtree, and its attributes' rows.
#[derive(Clone, Copy)]
pub struct Element {
    pub place: usize,
    pub name_len: usize,
    pub end: usize,
    pub first: usize,
    pub many: usize,
}

// The row of an element.
pub fn element_at(nodes: &[u32], k: usize) -> Element
    requires { k * 6 + 6 ≤ length nodes.now }
    ensures { result ≡ element_row nodes.now k }
{
    let at = k * NODE_CELLS;
    Element {
        place: scan::get(nodes, at + 2),
        name_len: scan::get(nodes, at + 3),
        end: scan::get(nodes, at + 1),
        first: scan::get(nodes, at + 4),
        many: scan::get(nodes, at + 5),
    }
}

// Is node k an element of this local name?
pub fn is_element(nodes: &[u32], strings: &[u8], k: usize, name: &[u8]) -> bool
    requires { HasRow nodes.now strings.now k }
    ensures { result ≡ is_element nodes.now strings.now name.now k }
{
    let at = k * NODE_CELLS;
    if nodes[at] != ELEMENT {
        return false;
    }
    let start = scan::get(nodes, at + 2) + 1;
    let stop = start + scan::get(nodes, at + 3);
    let local = start + scan::tag_local(&strings[start..stop]);
    scan::eq_ignore_ascii_case(&strings[local..stop], name)
}

// The first element of this local name among the siblings in the rows from `from` up to `end`.
pub fn find_element(
    nodes: &[u32],
    strings: &[u8],
    from: usize,
    end: usize,
    name: &[u8],
) -> Option<usize>
    requires { Siblings nodes.now strings.now from end }
    ensures { OfSiblings nodes.now from end (λ f. result ≡ find_row strings.now name.now from f) }
{
    let mut k = from;
    while k < end {
        if is_element(nodes, strings, k, name) {
            return Some(k);
        }
        k = scan::get(nodes, k * NODE_CELLS + 1);
    }
    None
}

// Is this the name of attribute k, letters in any case? Most names have another length, and most that are found are spelt as they are looked for.
fn is_attr(attrs: &[u32], strings: &[u8], k: usize, name: &[u8]) -> bool
    requires { NameFits attrs.now strings.now k }
    ensures { result ≡ same_folded (name_at attrs.now strings.now k) name.now }
{
    let len = scan::get(attrs, k * ATTR_CELLS + 1);
    if len != name.len() {
        return false;
    }
    let start = scan::get(attrs, k * ATTR_CELLS);
    let stop = start + len;
    let here = &strings[start..stop];
    scan::same(here, name) || scan::eq_ignore_ascii_case(here, name)
}

// The row of an attribute.
pub fn attr_at(attrs: &[u32], k: usize) -> Attribute
    requires { k * 4 + 4 ≤ length attrs.now }
    ensures { result ≡ attribute_row attrs.now k }
{
    let at = k * ATTR_CELLS;
    Attribute {
        at: scan::get(attrs, at),
        place: scan::get(attrs, at + 2),
        len: scan::get(attrs, at + 3),
    }
}

impl<'a> Attributes<'a> {
    // The name in row k.
    pub fn name(&self, k: usize) -> &'a [u8]
        requires { NameFits self.now.attrs.now self.now.strings.now k }
        ensures { result.now ≡ name_at self.now.attrs.now self.now.strings.now k }
    {
        let start = scan::get(self.attrs, k * ATTR_CELLS);
        &self.strings[start..start + scan::get(self.attrs, k * ATTR_CELLS + 1)]
    }

    // The first of this name.
    pub fn attr(&self, name: &[u8]) -> Option<Attribute>
        ensures { Of self.now (λ l. result ≡ find_value self.now.strings.now name.now l) }
    {
        let end = self.first + self.many;
        for k in self.first..end {
            if is_attr(self.attrs, self.strings, k, name) {
                return Some(attr_at(self.attrs, k));
            }
        }
        None
    }
}

// The same of the `many` attributes from row `first` on, for a caller that has no `Attributes`.
pub fn attr(
    attrs: &[u32],
    strings: &[u8],
    first: usize,
    many: usize,
    name: &[u8],
) -> Option<Attribute>
    requires { HasRows attrs.now strings.now first many }
    ensures { OfRows attrs.now strings.now first many (λ l. result ≡ find_value strings.now name.now l) }
{
    let these = Attributes {
        attrs,
        strings,
        first,
        many,
    };
    these.attr(name)
}
