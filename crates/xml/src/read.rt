// The public call.
ghost use Rattle.xml.specs.Promise.{tables, Parsed};

use tree::{Refusal, TreeSize};

const STRING_CELLS: usize = tree::BYTES;

// The text's tree. A string that stands at a place of the text stands at that place of `strings`: names
// and sections as they are, texts and values with entities read. After a refusal every cell is 0.
pub fn parse_xml(
    text: &[u8],
    nodes: &mut [u32],
    attrs: &mut [u32],
    strings: &mut [u8],
) -> Result<TreeSize, Refusal>
    ensures { Parsed text.now (tables nodes.old attrs.old strings.old) result
        (tables nodes.new attrs.new strings.new) }
{
    scan::clear_bytes(strings);
    if strings.len() < STRING_CELLS {
        scan::clear(nodes);
        scan::clear(attrs);
        return Err(Refusal {
            number: 1,
            place: 0,
        });
    }
    let t = tree::read_tree(text, nodes, attrs)?;
    crate::strings::read_nodes(text, nodes, strings, t.nodes);
    crate::strings::read_attrs(text, attrs, strings, t.attrs);
    Ok(t)
}
