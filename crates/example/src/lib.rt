#![tactic(auto)]
// The example of README.md: the contracts of `xml` compose, with no induction of one's own.
ghost use Rattle.xml.specs.Promise.{tables};
ghost use Rattle.example.specs.Count.{Counts};

// How many attributes the first top-level tt of a text has.
pub fn root_attributes(
    text: &[u8],
    nodes: &mut [u32],
    attrs: &mut [u32],
    strings: &mut [u8],
) -> usize
    ensures { Counts text.now (tables nodes.old attrs.old strings.old) result
        (tables nodes.new attrs.new strings.new) }
{
    let Ok(size) = xml::parse_xml(text, nodes, attrs, strings) else {
        return 0; // document 01's number and place are in the refusal, and every table is zero
    };
    match xml::find_element(nodes, strings, 0, size.nodes, b"tt") {
        Some(k) => xml::element_at(nodes, k).many,
        None => 0,
    }
}
