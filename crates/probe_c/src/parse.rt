// A C name for the tree of a text.
ghost use Rattle.xml.specs.Promise.{tables};
ghost use Rattle.probe.specs.Trees.{room, TellsIf};

// The text's tree in the three tables: 0, or document 01's number. The first three cells of out are the
// place of a refusal, and how many nodes and attributes a tree has. 2^32 - 1 if there are fewer, then
// no table is touched.
#[unsafe(no_mangle)]
pub extern "C" fn probe_parse_xml(
    text: &[u8],
    nodes: &mut [u32],
    attrs: &mut [u32],
    strings: &mut [u8],
    out: &mut [u64],
) -> u32
    ensures { TellsIf (room out.old) text.now
        (tables nodes.old attrs.old strings.old)
        (tables nodes.new attrs.new strings.new) out.old out.new result }
{
    probe::probe_parse_xml(text, nodes, attrs, strings, out)
}
