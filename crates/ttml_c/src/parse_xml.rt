// The tree reader.
ghost use Rattle.xml.specs.Promise.{tables};
ghost use Rattle.told.specs.Trees.{ReadInC};

// The text's tree; `counts` are its nodes and attributes.
#[unsafe(no_mangle)]
pub extern "C" fn pg_parse_xml(
    text: &[u8],
    nodes: &mut [u32],
    attrs: &mut [u32],
    strings: &mut [u8],
    counts: &mut [u32],
) -> u64
    ensures { ReadInC text.now (tables nodes.old attrs.old strings.old) counts.old
        (tables nodes.new attrs.new strings.new) counts.new result }
{
    ttml::pg_parse_xml(text, nodes, attrs, strings, counts)
}
