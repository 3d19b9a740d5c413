// The same pieces for a caller that hands on a place, or that something did not fit: from there on nothing is written.
ghost use Rattle.std.specs.Prelude.{◌≡◌, true, [], ◌+◌, ◌≤◌, cond, length};
ghost use Rattle.entities.specs.Escape.{escaped};
ghost use Rattle.colors.specs.Written.{rgba_text};
ghost use Rattle.track.specs.Handed.{lists};
ghost use Rattle.track.specs.Tables.{rows_from};
ghost use Rattle.track.specs.Meaning.{bytes_at, cue_in};
ghost use Rattle.written.specs.Attributes.{size_text};
ghost use Rattle.written.specs.Written.{cue_text, lines};
ghost use Rattle.writer.specs.Puts.{Room, Puts, quoted};
ghost use Rattle.writer.specs.Rows.{over, extra_text, ExtrasReady};
ghost use Rattle.writer.specs.Cues.{CuesReady};

use crate::buffer::Out;
use colors::Rgba;
use decimals::Size;
use names::Listed;
use track::{Span, Tables};

pub fn put(bytes: &mut [u8], at: Option<usize>, piece: &[u8]) -> Option<usize>
    requires { Room at bytes.old }
    ensures { Puts piece.now at bytes.old bytes.new result }
{
    let mut out = Out { bytes, at: at? };
    out.put(piece)?;
    Some(out.at)
}

pub fn put_if(bytes: &mut [u8], at: Option<usize>, has: bool, piece: &[u8]) -> Option<usize>
    requires { Room at bytes.old }
    ensures { Puts (cond has piece.now []) at bytes.old bytes.new result }
{
    let mut out = Out { bytes, at: at? };
    out.put_if(has, piece)?;
    Some(out.at)
}

pub fn rgba_attr(
    bytes: &mut [u8],
    at: Option<usize>,
    start: &[u8],
    has: bool,
    c: Rgba,
) -> Option<usize>
    requires { Room at bytes.old }
    ensures { Puts (cond has (quoted start.now (rgba_text c)) []) at bytes.old bytes.new result }
{
    let mut out = Out { bytes, at: at? };
    out.rgba_attr(start, has, c)?;
    Some(out.at)
}

pub fn size_attr(
    bytes: &mut [u8],
    at: Option<usize>,
    start: &[u8],
    has: bool,
    s: Size,
) -> Option<usize>
    requires { Room at bytes.old × (has ≡ true → s.scale ≤ 10) }
    ensures { Puts (cond has (quoted start.now (size_text s)) []) at bytes.old bytes.new result }
{
    let mut out = Out { bytes, at: at? };
    out.size_attr(start, has, s)?;
    Some(out.at)
}

pub fn span_attr(
    bytes: &mut [u8],
    at: Option<usize>,
    start: &[u8],
    strings: &[u8],
    x: Span,
) -> Option<usize>
    requires { Room at bytes.old × (x.place + x.len ≤ length strings.now) }
    ensures { Puts (quoted start.now (escaped true (bytes_at strings.now x))) at bytes.old bytes.new result }
{
    let mut out = Out { bytes, at: at? };
    out.span_attr(start, strings, x)?;
    Some(out.at)
}

pub fn optional_attr(
    bytes: &mut [u8],
    at: Option<usize>,
    start: &[u8],
    has: bool,
    strings: &[u8],
    x: Span,
) -> Option<usize>
    requires { Room at bytes.old × (has ≡ true → x.place + x.len ≤ length strings.now) }
    ensures { Puts (cond has (quoted start.now (escaped true (bytes_at strings.now x))) []) at bytes.old bytes.new result }
{
    let mut out = Out { bytes, at: at? };
    out.optional_attr(start, has, strings, x)?;
    Some(out.at)
}

pub fn write_extras(
    bytes: &mut [u8],
    at: Option<usize>,
    list: Listed,
    extras: &[u32],
    strings: &[u8],
    first: usize,
    n: usize,
) -> Option<usize>
    requires { Room at bytes.old × ExtrasReady list extras.now strings.now first n }
    ensures { Puts (over (extra_text list extras.now strings.now) n first) at bytes.old bytes.new result }
{
    let mut out = Out { bytes, at: at? };
    out.write_extras(list, extras, strings, first, n)?;
    Some(out.at)
}

pub fn write_cues(bytes: &mut [u8], at: Option<usize>, t: &Tables<'_>, n: usize) -> Option<usize>
    requires { CuesReady (lists t.now) n × Room at bytes.old }
    ensures { Puts (lines cue_text (rows_from (cue_in (lists t.now)) n 0)) at bytes.old bytes.new result }
{
    let mut out = Out { bytes, at: at? };
    out.write_cues(t, n)?;
    Some(out.at)
}
