// Rows of the two tables: six cells for a node, four for an attribute.
ghost use Rattle.std.specs.Prelude.{◌≡◌, ◌+◌, ◌*◌, ◌≤◌, ◌<◌, ◌^◌, length};
ghost use Rattle.std.proofs.lemmas.List.Edits.{sets};
ghost use Rattle.tree.specs.Trees.{row, attr_row};

// At most so many rows in each table (document 01, "Limits"), and how many cells a row has.
pub const MOST: usize = 8192;

pub const NODE_CELLS: usize = 6;

pub const ATTR_CELLS: usize = 4;

// Kinds of nodes.
pub const TEXT: u32 = 1;

pub const ELEMENT: u32 = 2;

pub const SECTION: u32 = 3;

// A node: its kind, the row after its subtree, place, length, first attribute, number of attributes.
#[derive(Clone, Copy)]
pub struct NodeRow {
    pub kind: u32,
    pub end: usize,
    pub place: usize,
    pub len: usize,
    pub first: usize,
    pub many: usize,
}

pub fn put_node(cells: &mut [u32], count: usize, n: NodeRow)
    requires { (count * 6 + 6 ≤ length cells.old) × (n.end < 2 ^ 32) × (n.place < 2 ^ 32) × (n.len < 2 ^ 32) × (n.first < 2 ^ 32)
        × (n.many < 2 ^ 32) }
    ensures { cells.new ≡ sets cells.old (count * 6) (row n.kind n.end n.place n.len n.first n.many) }
{
    let at = count * NODE_CELLS;
    cells[at] = n.kind;
    cells[at + 1] = n.end as u32;
    cells[at + 2] = n.place as u32;
    cells[at + 3] = n.len as u32;
    cells[at + 4] = n.first as u32;
    cells[at + 5] = n.many as u32;
}

// Place and length of the name, place and length of the value.
pub fn put_attr(
    cells: &mut [u32],
    count: usize,
    name: usize,
    name_len: usize,
    value: usize,
    value_len: usize,
)
    requires { (count * 4 + 4 ≤ length cells.old) × (name < 2 ^ 32) × (name_len < 2 ^ 32) × (value < 2 ^ 32) × (value_len < 2 ^ 32) }
    ensures { cells.new ≡ sets cells.old (count * 4)
        (attr_row (record { name = name; name_len = name_len; value = value; value_len = value_len })) }
{
    let at = count * ATTR_CELLS;
    cells[at] = name as u32;
    cells[at + 1] = name_len as u32;
    cells[at + 2] = value as u32;
    cells[at + 3] = value_len as u32;
}
