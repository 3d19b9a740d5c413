// A C name for the tree of a text.
ghost use Rattle.std.specs.Prelude.{◌≡◌, [], ◌∷◌, ◌≤◌, length};
ghost use Rattle.std.proofs.lemmas.List.Edits.{sets};
ghost use Rattle.xml.specs.Promise.{tables};
ghost use Rattle.probe.specs.Trees.{room, TellsIf};

use tree::TreeSize;

// A refusal's place and a tree's numbers of nodes and attributes, in the first three cells.
fn put_counts(out: &mut [u64], place: usize, nodes: usize, attrs: usize)
    requires { 3 ≤ length out.old }
    ensures { out.new ≡ sets out.old 0 (place ∷ nodes ∷ attrs ∷ []) }
{
    out[0] = place as u64;
    out[1] = nodes as u64;
    out[2] = attrs as u64;
}

// The text's tree in the three tables: 0, or document 01's number. The first three cells of out are the
// place of a refusal, and how many nodes and attributes a tree has. 2^32 - 1 if there are fewer, then
// no table is touched.
pub fn probe_parse_xml(
    text: &[u8],
    nodes: &mut [u32],
    attrs: &mut [u32],
    strings: &mut [u8],
    out: &mut [u64],
) -> u32
    ensures { TellsIf (room out.old) text.now
        (tables nodes.old attrs.old strings.old)
        (tables nodes.new attrs.new strings.new) out.old out.new result }
{
    if out.len() < 3 {
        return u32::MAX;
    }
    match xml::parse_xml(text, nodes, attrs, strings) {
        Err(r) => {
            put_counts(out, r.place, 0, 0);
            r.number
        }
        Ok(TreeSize { nodes: n, attrs: m }) => {
            put_counts(out, 0, n, m);
            0
        }
    }
}
