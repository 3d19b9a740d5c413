// The whole text: its limits, its top-level nodes, and the public call.
ghost use Rattle.tree.specs.Read.{top_of};
ghost use Rattle.tree.specs.Posts.{Ready, ContentPost, LimitsPost, TreeRead};

use crate::answers::{Cursor, Refusal, Step, TreeSize};
use crate::rows::{ATTR_CELLS, MOST, NODE_CELLS};

// The tables' lengths.
const NODE_TABLE: usize = MOST * NODE_CELLS;

const ATTR_TABLE: usize = MOST * ATTR_CELLS;

// At most so many bytes in a text.
pub const BYTES: usize = 65536;

const DEPTH: usize = 64;

// The numbers 1 to 3: the lengths of the tables, the text's length, UTF-8.
fn test_limits(src: &[u8], nodes: usize, attrs: usize) -> Result<(), Refusal>
    ensures { LimitsPost src.now nodes attrs result }
{
    if nodes < NODE_TABLE || attrs < ATTR_TABLE {
        return Err(Refusal::new(1, 0));
    }
    if BYTES < src.len() {
        return Err(Refusal::new(2, 0));
    }
    let valid = utf8::utf8_end(src);
    if valid < src.len() {
        return Err(Refusal::new(3, valid));
    }
    Ok(())
}

// The nodes at top level, from the prolog's end on.
pub fn parse_top(
    src: &[u8],
    nodes: &mut [u32],
    attrs: &mut [u32],
    from: usize,
) -> Result<Cursor, Refusal>
    requires { Ready src.now nodes.old attrs.old from 0 0 }
    ensures { ContentPost (top_of src.now from) src.now
        nodes.old nodes.new attrs.old attrs.new from 0 0 result }
{
    let mut pos = from;
    let mut k = 0;
    let mut a = 0;
    while pos < src.len() {
        match crate::nodes::parse_node(src, nodes, attrs, pos, k, a, DEPTH)? {
            Step::Node(c) => {
                pos = c.pos;
                k = c.nodes;
                a = c.attrs;
            }
            Step::Nothing(q) => {
                return Ok(Cursor {
                    pos: q,
                    nodes: k,
                    attrs: a,
                });
            }
        }
    }
    Ok(Cursor {
        pos,
        nodes: k,
        attrs: a,
    })
}

// The text read into the tables of nodes and attributes; after a refusal every cell is 0.
pub fn read_tree(src: &[u8], nodes: &mut [u32], attrs: &mut [u32]) -> Result<TreeSize, Refusal>
    ensures { TreeRead src.now nodes.old attrs.old result nodes.new attrs.new }
{
    scan::clear(nodes);
    scan::clear(attrs);
    test_limits(src, nodes.len(), attrs.len())?;
    match crate::parser::parse_document(src, nodes, attrs) {
        Ok(c) => Ok(TreeSize {
            nodes: c.nodes,
            attrs: c.attrs,
        }),
        Err(r) => {
            scan::clear(nodes);
            scan::clear(attrs);
            Err(r)
        }
    }
}
