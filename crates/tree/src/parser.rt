// The parser: the text and a position in it, held together as in the Rust's `XmlParser`. Its methods are thin: each takes the struct
// apart, and the work is done by a function on the slice and the number.
ghost use Rattle.std.specs.Prelude.{◌≡◌, [], ◌∷◌, ◌≤◌, length, get_or};
ghost use Rattle.tree.specs.Read.{top_of, prolog_from, prolog_end};
ghost use Rattle.tree.specs.Posts.{Ready, ContentPost};
ghost use Rattle.scan.specs.Bytes.{blank};
ghost use Rattle.scan.specs.Marks.{starts_at};
ghost use Rattle.scan.specs.Posts.{Ends};

use crate::answers::{Cursor, Refusal};

#[derive(Clone, Copy)]
pub struct XmlParser<'a> {
    pub src: &'a [u8],
    pub pos: usize,
}

impl<'a> XmlParser<'a> {
    // At the start of the text.
    fn new(src: &'a [u8]) -> XmlParser<'a>
        ensures { (result.src ≡ src.entry) × (result.pos ≡ 0) }
    {
        XmlParser { src, pos: 0 }
    }

    // The byte at its position, and 0 at the text's end.
    fn peek(self) -> u8
        requires { self.pos ≤ length self.src.now }
        ensures { result ≡ get_or self.entry.src.now self.entry.pos 0 }
    {
        crate::prolog::byte_at(self.src, self.pos)
    }

    // Whether a mark of two bytes stands at its position.
    fn starts_with(self, first: u8, second: u8) -> bool
        requires { self.pos ≤ length self.src.now }
        ensures { result ≡ starts_at self.entry.src.now self.entry.pos (first ∷ second ∷ []) }
    {
        self.peek() == first && crate::prolog::follows(self.src, self.pos, second)
    }

    // Past the blanks at its position.
    fn skip_blanks(self) -> XmlParser<'a>
        requires { self.pos ≤ length self.src.now }
        ensures { (result.src ≡ self.entry.src) × Ends blank self.entry.src.now self.entry.pos result.pos }
    {
        let pos = crate::prolog::over_blanks(self.src, self.pos);
        XmlParser { pos, ..self }
    }

    // Past the prolog that begins at its position, as far as it goes.
    fn over_prolog(self) -> XmlParser<'a>
        requires { self.pos ≤ length self.src.now }
        ensures { (result.src ≡ self.entry.src)
            × ((result.pos ≡ prolog_from self.entry.src.now self.entry.pos) × (result.pos ≤ length self.entry.src.now)) }
    {
        let pos = crate::prolog::skip_prolog(self.src, self.pos);
        XmlParser { pos, ..self }
    }

    // Past the prolog at its position. Where the root begins at once, by `<t`, there is none.
    fn skip_prolog(self) -> XmlParser<'a>
        requires { self.pos ≤ length self.src.now }
        ensures { (result.src ≡ self.entry.src)
            × ((result.pos ≡ prolog_from self.entry.src.now self.entry.pos) × (result.pos ≤ length self.entry.src.now)) }
    {
        if self.starts_with(b'<', b't') {
            self
        } else {
            self.over_prolog()
        }
    }

    // The nodes at top level, from its position on.
    fn parse_nodes(self, nodes: &mut [u32], attrs: &mut [u32]) -> Result<Cursor, Refusal>
        requires { Ready self.src.now nodes.old attrs.old self.pos 0 0 }
        ensures { ContentPost (top_of self.entry.src.now self.entry.pos) self.entry.src.now
            nodes.old nodes.new attrs.old attrs.new self.entry.pos 0 0 result }
    {
        crate::read::parse_top(self.src, nodes, attrs, self.pos)
    }
}

// The text's nodes at top level. Its parameters are plain.
pub fn parse_document(src: &[u8], nodes: &mut [u32], attrs: &mut [u32]) -> Result<Cursor, Refusal>
    requires { Ready src.now nodes.old attrs.old 0 0 0 }
    ensures { ContentPost (top_of src.now (prolog_end src.now)) src.now
        nodes.old nodes.new attrs.old attrs.new (prolog_end src.now) 0 0 result }
{
    XmlParser::new(src)
        .skip_blanks()
        .skip_prolog()
        .parse_nodes(nodes, attrs)
}
