// The head: its styles and regions, in order.
ghost use Rattle.heads.specs.Steps.{in_all, in_styling, in_layout, in_head_of, listed_styles, styles_in, AsksStyles, StylesPost};
ghost use Rattle.heads.specs.Steps.{listed_regions, regions_in, AsksRegions, RegionsPost, alone, inside_head, four, AsksHead, HeadPost};

use tree::{NODE_CELLS, Refusal};
use xml::Tree;

// Rows of a table, and rows of extras up to and with theirs.
#[derive(Clone, Copy)]
pub struct Count {
    pub rows: usize,
    pub extras: usize,
}

// The styles among the siblings in the rows from `from` up to `end`.
fn collect_styles(
    tree: &Tree<'_>,
    from: usize,
    end: usize,
    styles: &mut [u32],
    sizes: &mut [f32],
    extras: &mut [u32],
) -> Result<Count, Refusal>
    requires { AsksStyles in_all tree.now.nodes.now tree.now.attrs.now tree.now.strings.now from end styles.old sizes.old extras.old }
    ensures { StylesPost listed_styles in_all tree.now.nodes.now tree.now.attrs.now tree.now.strings.now from end
        styles.old styles.new sizes.old sizes.new extras.old extras.new result }
{
    let mut n = 0;
    let mut at = 0;
    let mut k = from;
    while k < end {
        if xml::is_element(tree.nodes, tree.strings, k, b"style") {
            let e = xml::element_at(tree.nodes, k);
            let attrs = tree.attributes(e);
            let made = crate::styles::build_style(&attrs, e.place, styles, sizes, n, extras, at)?;
            if let Some(m) = made {
                n += 1;
                at += m;
            }
        }
        k = scan::get(tree.nodes, k * NODE_CELLS + 1);
    }
    Ok(Count {
        rows: n,
        extras: at,
    })
}

// The regions among the siblings in the rows from `from` up to `end`, where `rows` extras stand. (One function for both would take the step,
// its tables and their clauses as parameters, which reads no plainer.)
fn collect_regions(
    tree: &Tree<'_>,
    from: usize,
    end: usize,
    regions: &mut [u32],
    extras: &mut [u32],
    rows: usize,
) -> Result<Count, Refusal>
    requires { AsksRegions in_all tree.now.nodes.now tree.now.attrs.now tree.now.strings.now from end rows regions.old extras.old }
    ensures { RegionsPost listed_regions in_all tree.now.nodes.now tree.now.attrs.now tree.now.strings.now from end rows
        regions.old regions.new extras.old extras.new result }
{
    let mut n = 0;
    let mut at = rows;
    let mut k = from;
    while k < end {
        if xml::is_element(tree.nodes, tree.strings, k, b"region") {
            let e = xml::element_at(tree.nodes, k);
            let attrs = tree.attributes(e);
            let made = crate::regions::build_region(&attrs, e.place, regions, n, extras, at)?;
            if let Some(m) = made {
                n += 1;
                at += m;
            }
        }
        k = scan::get(tree.nodes, k * NODE_CELLS + 1);
    }
    Ok(Count {
        rows: n,
        extras: at,
    })
}

// The styles in the first styling among these siblings.
fn find_styles(
    tree: &Tree<'_>,
    from: usize,
    end: usize,
    styles: &mut [u32],
    sizes: &mut [f32],
    extras: &mut [u32],
) -> Result<Count, Refusal>
    requires { AsksStyles in_styling tree.now.nodes.now tree.now.attrs.now tree.now.strings.now from end styles.old sizes.old extras.old }
    ensures { StylesPost styles_in in_styling tree.now.nodes.now tree.now.attrs.now tree.now.strings.now from end
        styles.old styles.new sizes.old sizes.new extras.old extras.new result }
{
    let Some(k) = xml::find_element(tree.nodes, tree.strings, from, end, b"styling") else {
        return Ok(Count { rows: 0, extras: 0 });
    };
    let e = xml::element_at(tree.nodes, k);
    collect_styles(tree, k + 1, e.end, styles, sizes, extras)
}

// The regions in the first layout among these siblings.
fn find_regions(
    tree: &Tree<'_>,
    from: usize,
    end: usize,
    regions: &mut [u32],
    extras: &mut [u32],
    rows: usize,
) -> Result<Count, Refusal>
    requires { AsksRegions in_layout tree.now.nodes.now tree.now.attrs.now tree.now.strings.now from end rows regions.old extras.old }
    ensures { RegionsPost regions_in in_layout tree.now.nodes.now tree.now.attrs.now tree.now.strings.now from end rows
        regions.old regions.new extras.old extras.new result }
{
    let Some(k) = xml::find_element(tree.nodes, tree.strings, from, end, b"layout") else {
        return Ok(Count {
            rows: 0,
            extras: rows,
        });
    };
    let e = xml::element_at(tree.nodes, k);
    collect_regions(tree, k + 1, e.end, regions, extras, rows)
}

// How many styles and regions there are, and rows of their extras.
#[derive(Clone, Copy)]
pub struct Heads {
    pub styles: usize,
    pub regions: usize,
    pub extras: usize,
}

// Those of the head's content in the rows from `from` up to `end`.
fn collect_inside(
    tree: &Tree<'_>,
    from: usize,
    end: usize,
    styles: &mut [u32],
    regions: &mut [u32],
    sizes: &mut [f32],
    extras: &mut [u32],
) -> Result<Heads, Refusal>
    requires { AsksHead tree.now.nodes.now tree.now.attrs.now tree.now.strings.now from end (four styles.old regions.old sizes.old extras.old) }
    ensures { HeadPost alone in_all tree.now.nodes.now tree.now.attrs.now tree.now.strings.now from end
        (four styles.old regions.old sizes.old extras.old)
        (four styles.new regions.new sizes.new extras.new) result }
{
    let s = find_styles(tree, from, end, styles, sizes, extras)?;
    let t = find_regions(tree, from, end, regions, extras, s.extras)?;
    Ok(Heads {
        styles: s.rows,
        regions: t.rows,
        extras: t.extras,
    })
}

// The styles and regions of the first head among the siblings in the rows from `from` up to `end`.
pub fn collect_head(
    tree: &Tree<'_>,
    from: usize,
    end: usize,
    styles: &mut [u32],
    regions: &mut [u32],
    sizes: &mut [f32],
    extras: &mut [u32],
) -> Result<Heads, Refusal>
    requires { AsksHead tree.now.nodes.now tree.now.attrs.now tree.now.strings.now from end (four styles.old regions.old sizes.old extras.old) }
    ensures { HeadPost inside_head in_head_of tree.now.nodes.now tree.now.attrs.now tree.now.strings.now from end
        (four styles.old regions.old sizes.old extras.old)
        (four styles.new regions.new sizes.new extras.new) result }
{
    let Some(k) = xml::find_element(tree.nodes, tree.strings, from, end, b"head") else {
        return Ok(Heads {
            styles: 0,
            regions: 0,
            extras: 0,
        });
    };
    let e = xml::element_at(tree.nodes, k);
    collect_inside(tree, k + 1, e.end, styles, regions, sizes, extras)
}
