#![tactic(auto)]
// No public call: a function for each that the comparison with the Rust calls (`oracle/`), and no part of the
// library; the C names are `probe_c`. None asks anything of its caller: each tests what the function below it asks.
mod color;
mod decimal;
mod parse;
mod time;

ghost use Rattle.std.specs.Prelude.{◌≡◌, true, false, [], ◌∷◌, ◌≤◌, ◌<◌, length};
ghost use Rattle.std.proofs.lemmas.List.Edits.{sets};
ghost use Rattle.scan.specs.Names.{same_folded, after_last_colon, after_first_colon, PartFrom};
ghost use Rattle.utf8.specs.Utf8.{LongestValid};
ghost use Rattle.entities.specs.Reference.{lookup};
ghost use Rattle.entities.specs.Decode.{decoded};
ghost use Rattle.entities.specs.Escape.{escaped};
ghost use Rattle.probe.specs.Answers.{first_of, stands_at, Trims, FindsWord, asked, Numbered, code_of, end_or, Filled, FilledInPart};

pub use color::{probe_color, probe_color_text};
pub use decimal::{
    probe_decimal, probe_decimal_f64, probe_is_size, probe_size, probe_size_width, probe_truncate,
};
use numerals::Whole;
pub use parse::probe_parse_xml;
pub use time::{probe_format_ts, probe_time};

// Where the longest valid beginning of the text ends.
pub fn probe_utf8_end(text: &[u8]) -> usize
    ensures { LongestValid text.now result }
{
    utf8::utf8_end(text)
}

// A start and an end, in the first two cells.
fn put_span(out: &mut [u64], start: usize, end: usize)
    requires { 2 ≤ length out.old }
    ensures { out.new ≡ sets out.old 0 (start ∷ end ∷ []) }
{
    out[0] = start as u64;
    out[1] = end as u64;
}

// Where the trimmed text starts and ends; false if there are not two cells for it.
pub fn probe_trim(text: &[u8], out: &mut [u64]) -> bool
    ensures { Trims text.now out.old out.new result }
{
    if out.len() < 2 {
        return false;
    }
    let span = utf8::trim(text);
    put_span(out, span.start, span.end);
    true
}

// Where the next word starts and ends; false if there is none, or not two cells for it.
pub fn probe_next_word(text: &[u8], from: usize, out: &mut [u64]) -> bool
    ensures { FindsWord text.now from out.old out.new result }
{
    if out.len() < 2 || text.len() < from {
        return false;
    }
    match utf8::next_word(text, from) {
        Some(span) => {
            put_span(out, span.start, span.end);
            true
        }
        None => false,
    }
}

// The first place of the mark, or 2^64 - 1.
pub fn probe_find_seq(src: &[u8], from: usize, mark: &[u8]) -> usize
    ensures { result ≡ first_of mark.now src.now from }
{
    if mark.is_empty() {
        return usize::MAX;
    }
    if src.len() <= from {
        return usize::MAX;
    }
    let place = scan::find_seq(src, from, mark);
    if place < src.len() { place } else { usize::MAX }
}

// Does the mark stand at the place?
pub fn probe_starts_with(src: &[u8], from: usize, mark: &[u8]) -> bool
    ensures { result ≡ stands_at mark.now src.now from }
{
    from <= src.len() && scan::starts_with(src, from, mark)
}

// Are the two the same but for the case of ASCII letters?
pub fn probe_eq_ignore_ascii_case(a: &[u8], b: &[u8]) -> bool
    ensures { result ≡ same_folded a.now b.now }
{
    scan::eq_ignore_ascii_case(a, b)
}

// Where the local part of a tag's name starts.
pub fn probe_tag_local(name: &[u8]) -> usize
    ensures { PartFrom name.now result (after_last_colon name.now) }
{
    scan::tag_local(name)
}

// Where a parameter's name starts.
pub fn probe_strip_ns(name: &[u8]) -> usize
    ensures { PartFrom name.now result (after_first_colon name.now) }
{
    scan::strip_ns(name)
}

// 0: no number, 1: a number, 2: a negative number. Its size goes to the first cell.
fn put_number(n: Option<Whole>, out: &mut [u64]) -> u32
    requires { 0 < length out.old }
    ensures { Numbered n out.old out.new result }
{
    match n {
        Some(w) => {
            out[0] = w.magnitude;
            if w.negative { 2 } else { 1 }
        }
        None => 0,
    }
}

// The number that the text spells: none also if the radix is not from 2 to 36, the largest value
// is past 2^63 - 1, or there is no cell.
pub fn probe_numeral(text: &[u8], radix: u32, max: u64, minus: bool, out: &mut [u64]) -> u32
    ensures { Numbered (asked text.now radix max minus out.old) out.old out.new result }
{
    if !(2..=36).contains(&radix) || 0x7FFF_FFFF_FFFF_FFFF < max || out.is_empty() {
        return 0;
    }
    put_number(numerals::read_numeral(text, radix as u64, max, minus), out)
}

// The character that the name stands for, or 2^32 - 1.
pub fn probe_lookup_entity(name: &[u8]) -> u32
    ensures { result ≡ code_of (lookup name.now) }
{
    entities::lookup_entity(name).unwrap_or(u32::MAX)
}

// The text with its references read, at the start of out: how many bytes, or 2^64 - 1 if out is
// shorter than the text.
pub fn probe_decode_entities(text: &[u8], out: &mut [u8]) -> usize
    ensures { Filled (length text.now) (decoded text.now) out.old out.new result }
{
    if out.len() < text.len() {
        return usize::MAX;
    }
    entities::decode_entities(text, out, 0)
}

fn place_of(w: Option<usize>) -> usize
    ensures { result ≡ end_or w }
{
    w.unwrap_or(usize::MAX)
}

// The text as it stands between tags, at the start of out: how many bytes, or 2^64 - 1 if it does
// not fit.
pub fn probe_escape_text(text: &[u8], out: &mut [u8]) -> usize
    ensures { FilledInPart (escaped false text.now) out.old out.new result }
{
    place_of(entities::escape_text(text, out, 0))
}

// The text as it stands in an attribute's value, likewise.
pub fn probe_escape_attr(text: &[u8], out: &mut [u8]) -> usize
    ensures { FilledInPart (escaped true text.now) out.old out.new result }
{
    place_of(entities::escape_attr(text, out, 0))
}
