// Regions.
ghost use Rattle.std.specs.Prelude.{◌+◌, ◌*◌, ◌≤◌, length};
ghost use Rattle.track.specs.Handed.{lists};
ghost use Rattle.track.specs.Tables.{rows_from};
ghost use Rattle.track.specs.Meaning.{region_in};
ghost use Rattle.written.specs.Written.{region_text, lines, layout_lines};
ghost use Rattle.writer.specs.Puts.{Writes};
ghost use Rattle.document.specs.Regions.{RegionReady, RegionsReady};

use names::Listed;
use track::Tables;
use writer::Out;

// The region in row i.
fn write_region(t: &Tables<'_>, i: usize, out: &mut Out<'_>) -> Option<()>
    requires { RegionReady (lists t.now) i }
    ensures { Writes (region_text (region_in (lists t.now) i)) out.old out.new result }
{
    let x = records::region_at(t.regions, i);
    let id = x.id;
    let kept = x.extras;
    let list = Listed::RegionAttr;
    out.span_attr(b"<region xml:id=\"", t.strings, id)?;
    out.write_extras(list, t.extras, t.strings, kept.first, kept.count)?;
    out.put(b"/>")
}

// The first n regions, each on a line of its own.
fn write_regions(t: &Tables<'_>, n: usize, out: &mut Out<'_>) -> Option<()>
    requires { RegionsReady (lists t.now) n }
    ensures { Writes (lines region_text (rows_from (region_in (lists t.now)) n 0)) out.old out.new result }
{
    for i in 0..n {
        out.put(b"      ")?;
        write_region(t, i, out)?;
        out.put(b"\n")?;
    }
    Some(())
}

// The part of the head that has the regions, where there are some.
pub fn write_layout(t: &Tables<'_>, n: usize, out: &mut Out<'_>) -> Option<()>
    requires { RegionsReady (lists t.now) n }
    ensures { Writes (layout_lines (rows_from (region_in (lists t.now)) n 0)) out.old out.new result }
{
    if n == 0 {
        return Some(());
    }
    out.put(b"    <layout>\n")?;
    write_regions(t, n, out)?;
    out.put(b"    </layout>\n")
}
