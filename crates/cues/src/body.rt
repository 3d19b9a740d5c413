// The body.
ghost use Rattle.cues.specs.Steps.{five, AsksBody, BodyPost};

use crate::lines::Line;
use styling::WsMode;
use times::TimingCtx;
use tree::Refusal;
use xml::Tree;

// The cues of the first body among the siblings in the rows from `from` up to `end`, where `rows` extras stand.
pub fn collect_body(
    tree: &Tree<'_>,
    cues: &mut [u32],
    times: &mut [i64],
    segments: &mut [u32],
    extras: &mut [u32],
    texts: &mut [u8],
    from: usize,
    end: usize,
    ctx: TimingCtx,
    ws: WsMode,
    rows: usize,
) -> Result<Line, Refusal>
    requires { AsksBody tree.now.nodes.now tree.now.attrs.now tree.now.strings.now from end rows
        (five cues.old times.old segments.old extras.old texts.old) }
    ensures { BodyPost tree.now.nodes.now tree.now.attrs.now tree.now.strings.now from end ctx ws rows
        (five cues.old times.old segments.old extras.old texts.old)
        (five cues.new times.new segments.new extras.new texts.new) result }
{
    let line = Line {
        cues: 0,
        rows: 0,
        extras: rows,
        end: 0,
    };
    let Some(k) = xml::find_element(tree.nodes, tree.strings, from, end, b"body") else {
        return Ok(line);
    };
    let e = xml::element_at(tree.nodes, k);
    let begin = intervals::begin_of(&tree.attributes(e), e.place, ctx)?;
    crate::collect::collect_container(
        tree, cues, times, segments, extras, texts, k, begin, ctx, ws, line,
    )
}
