// The start tag of tt, and the head.
ghost use Rattle.std.specs.Prelude.{◌+◌, ◌≤◌, ◌≡◌, true, length, get_or, eqb};
ghost use Rattle.track.specs.Handed.{lists};
ghost use Rattle.track.specs.Tables.{rows_from, param_count};
ghost use Rattle.track.specs.Meaning.{style_in, region_in};
ghost use Rattle.writer.specs.Puts.{Writes};
ghost use Rattle.document.specs.Styles.{StylesReady};
ghost use Rattle.document.specs.Regions.{RegionsReady};
ghost use Rattle.document.specs.Roots.{namespaces, lang_text, root_text, RootReady, head_text};

use track::{Span, Tables};
use writer::Out;

// The namespaces that are declared where something uses them.
fn put_namespaces(t: &Tables<'_>, out: &mut Out<'_>) -> Option<()>
    requires { RootReady (lists t.now) }
    ensures { Writes (namespaces (lists t.now)) out.old out.new result }
{
    let n = scan::get(t.head, 0);
    let ttp = crate::params::any_param(t.params, t.strings, n, false);
    let ittp = crate::params::any_param(t.params, t.strings, n, true);
    let itts = crate::itts::uses_itts(t);
    let start = b" xmlns:ttp=\"http://www.w3.org/ns/ttml#parameter\"";
    out.put_if(ttp, start)?;
    let start = b" xmlns:ittp=\"http://www.w3.org/ns/ttml/profile/imsc1#parameter\"";
    out.put_if(ittp, start)?;
    let start = b" xmlns:itts=\"http://www.w3.org/ns/ttml/profile/imsc1#styling\"";
    out.put_if(itts, start)
}

// xml:lang, `en` where the track has none.
fn put_lang(head: &[u32], strings: &[u8], out: &mut Out<'_>) -> Option<()>
    requires { (10 ≤ length head.now)
        × (eqb (get_or head.now 5 0) 1 ≡ true → get_or head.now 6 0 + get_or head.now 7 0 ≤ length strings.now) }
    ensures { Writes (lang_text head.now strings.now) out.old out.new result }
{
    if scan::get(head, 5) == 1 {
        let place = scan::get(head, 6);
        let len = scan::get(head, 7);
        let x = Span { place, len };
        return out.span_attr(b" xml:lang=\"", strings, x);
    }
    out.put(b" xml:lang=\"en\"")
}

// The start tag of tt.
pub fn write_root(t: &Tables<'_>, out: &mut Out<'_>) -> Option<()>
    requires { RootReady (lists t.now) }
    ensures { Writes (root_text (lists t.now)) out.old out.new result }
{
    let start =
        b"<tt xmlns=\"http://www.w3.org/ns/ttml\" xmlns:tts=\"http://www.w3.org/ns/ttml#styling\"";
    out.put(start)?;
    put_namespaces(t, out)?;
    crate::params::write_params(t.params, t.strings, scan::get(t.head, 0), out)?;
    put_lang(t.head, t.strings, out)?;
    out.put(b">\n")
}

// The head, where there are styles or regions.
pub fn write_head(t: &Tables<'_>, n: usize, m: usize, out: &mut Out<'_>) -> Option<()>
    requires { StylesReady (lists t.now) n × RegionsReady (lists t.now) m }
    ensures { Writes (head_text (rows_from (style_in (lists t.now)) n 0) (rows_from (region_in (lists t.now)) m 0)) out.old out.new result }
{
    if n == 0 && m == 0 {
        return Some(());
    }
    out.put(b"  <head>\n")?;
    crate::styles::write_styling(t, n, out)?;
    crate::regions::write_layout(t, m, out)?;
    out.put(b"  </head>\n")
}
