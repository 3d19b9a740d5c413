// Named styles. Equal names share the first chain and the first extras that are not empty.
ghost use Rattle.std.specs.Prelude.{◌+◌, ◌*◌, ◌≤◌, ◌<◌, ◌≡◌, true, length};
ghost use Rattle.track.specs.Handed.{lists};
ghost use Rattle.track.specs.Tables.{rows_from};
ghost use Rattle.track.specs.Meaning.{bytes_at, style_in};
ghost use Rattle.records.specs.Find.{Named, first_with};
ghost use Rattle.written.specs.Written.{style_text, lines, styling_lines};
ghost use Rattle.writer.specs.Puts.{Writes};
ghost use Rattle.document.specs.Styles.{LookWithin, look_text, align_text, flags_text};
ghost use Rattle.document.specs.Styles.{chain_text, kept_text, ChainsWithin, KeptReady, StylesReady};

use names::Listed;
use track::{Align, Look, STYLE_CELLS, Span, Tables};
use writer::Out;

// The colours and the font.
fn put_look(out: &mut Out<'_>, x: Look, strings: &[u8]) -> Option<()>
    requires { LookWithin strings.now x }
    ensures { Writes (look_text strings.now x) out.old out.new result }
{
    let color = x.color;
    let back = x.back;
    let family = x.family;
    let size = x.size;
    out.rgba_attr(b" tts:color=\"", x.has_color, color)?;
    out.rgba_attr(b" tts:backgroundColor=\"", x.has_back, back)?;
    let start = b" tts:fontFamily=\"";
    out.optional_attr(start, x.has_family, strings, family)?;
    out.size_attr(b" tts:fontSize=\"", x.has_size, size)
}

fn put_align(out: &mut Out<'_>, x: Align) -> Option<()>
    ensures { Writes (align_text x) out.old out.new result }
{
    match x {
        Align::Start => Some(()),
        Align::Center => out.put(b" tts:textAlign=\"center\""),
        Align::End => out.put(b" tts:textAlign=\"end\""),
        Align::Left => out.put(b" tts:textAlign=\"left\""),
        Align::Right => out.put(b" tts:textAlign=\"right\""),
    }
}

// Weight, slant, underline and alignment.
fn put_flags(out: &mut Out<'_>, x: Look) -> Option<()>
    ensures { Writes (flags_text x) out.old out.new result }
{
    let align = x.align;
    out.put_if(x.bold, b" tts:fontWeight=\"bold\"")?;
    out.put_if(x.italic, b" tts:fontStyle=\"italic\"")?;
    out.put_if(x.underline, b" tts:textDecoration=\"underline\"")?;
    put_align(out, align)
}

// Its chain: that of the first style of its name that has one.
fn put_chain(out: &mut Out<'_>, t: &Tables<'_>, n: usize, name: Span) -> Option<()>
    requires { Named t.now.styles.now t.now.strings.now 27 n
        × ChainsWithin t.now.styles.now t.now.strings.now n × (name.place + name.len ≤ length t.now.strings.now) }
    ensures { Writes (chain_text t.now.styles.now t.now.strings.now
        (first_with t.now.styles.now t.now.strings.now (bytes_at t.now.strings.now name) 27 3 n 0)) out.old out.new result }
{
    let from = name.place;
    let end = from + name.len;
    match records::find_chain(t.styles, t.strings, n, &t.strings[from..end]) {
        None => Some(()),
        Some(j) => {
            let place = scan::get(t.styles, j * STYLE_CELLS + 2);
            let len = scan::get(t.styles, j * STYLE_CELLS + 3);
            let x = Span { place, len };
            out.span_attr(b" style=\"", t.strings, x)
        }
    }
}

// Its extras: those of the first style of its name that has some.
fn put_kept(out: &mut Out<'_>, t: &Tables<'_>, n: usize, name: Span) -> Option<()>
    requires { Named t.now.styles.now t.now.strings.now 27 n
        × KeptReady t.now.styles.now t.now.extras.now t.now.strings.now n × (name.place + name.len ≤ length t.now.strings.now) }
    ensures { Writes (kept_text t.now.styles.now t.now.extras.now t.now.strings.now
        (first_with t.now.styles.now t.now.strings.now (bytes_at t.now.strings.now name) 27 26 n 0)) out.old out.new result }
{
    let from = name.place;
    let end = from + name.len;
    match records::find_extras(t.styles, t.strings, n, &t.strings[from..end]) {
        None => Some(()),
        Some(j) => {
            let first = scan::get(t.styles, j * STYLE_CELLS + 25);
            let count = scan::get(t.styles, j * STYLE_CELLS + 26);
            out.write_extras(Listed::StyleExtra, t.extras, t.strings, first, count)
        }
    }
}

// The style in row i, of n.
fn write_style(t: &Tables<'_>, n: usize, i: usize, out: &mut Out<'_>) -> Option<()>
    requires { StylesReady (lists t.now) n × (i < n) }
    ensures { Writes (style_text (rows_from (style_in (lists t.now)) n 0) (style_in (lists t.now) i)) out.old out.new result }
{
    let x = records::style_at(t.styles, t.sizes, i);
    let name = x.name;
    let look = x.look;
    out.span_attr(b"<style xml:id=\"", t.strings, name)?;
    put_chain(out, t, n, name)?;
    put_look(out, look, t.strings)?;
    put_flags(out, look)?;
    put_kept(out, t, n, name)?;
    out.put(b"/>")
}

// The n styles, each on a line of its own.
fn write_styles(t: &Tables<'_>, n: usize, out: &mut Out<'_>) -> Option<()>
    requires { StylesReady (lists t.now) n }
    ensures { Writes (lines (style_text (rows_from (style_in (lists t.now)) n 0)) (rows_from (style_in (lists t.now)) n 0)) out.old out.new result }
{
    for i in 0..n {
        out.put(b"      ")?;
        write_style(t, n, i, out)?;
        out.put(b"\n")?;
    }
    Some(())
}

// The part of the head that has the styles, where there are some.
pub fn write_styling(t: &Tables<'_>, n: usize, out: &mut Out<'_>) -> Option<()>
    requires { StylesReady (lists t.now) n }
    ensures { Writes (styling_lines (rows_from (style_in (lists t.now)) n 0)) out.old out.new result }
{
    if n == 0 {
        return Some(());
    }
    out.put(b"    <styling>\n")?;
    write_styles(t, n, out)?;
    out.put(b"    </styling>\n")
}
