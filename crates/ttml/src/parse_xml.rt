// The tree reader.
ghost use Rattle.xml.specs.Promise.{tables};
ghost use Rattle.told.specs.Trees.{ReadInC};

use told::{put_counts, told};
use tree::TreeSize;

const COUNTS: usize = 2;

// The text's tree; `counts` are its nodes and attributes.
pub fn pg_parse_xml(
    text: &[u8],
    nodes: &mut [u32],
    attrs: &mut [u32],
    strings: &mut [u8],
    counts: &mut [u32],
) -> u64
    ensures { ReadInC text.now (tables nodes.old attrs.old strings.old) counts.old
        (tables nodes.new attrs.new strings.new) counts.new result }
{
    scan::clear(counts);
    if counts.len() < COUNTS {
        scan::clear(nodes);
        scan::clear(attrs);
        scan::clear_bytes(strings);
        return told(1, 0);
    }
    match xml::parse_xml(text, nodes, attrs, strings) {
        Err(r) => told(r.number, r.place),
        Ok(TreeSize { nodes: n, attrs: m }) => {
            put_counts(counts, n, m);
            told(0, 0)
        }
    }
}
