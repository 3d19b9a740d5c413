// Bytes, marks, names, numerals and references.
ghost use Rattle.std.specs.Prelude.{◌≡◌, true, false, length};
ghost use Rattle.scan.specs.Names.{same_folded, after_last_colon, after_first_colon, PartFrom};
ghost use Rattle.utf8.specs.Utf8.{LongestValid};
ghost use Rattle.entities.specs.Reference.{lookup};
ghost use Rattle.entities.specs.Decode.{decoded};
ghost use Rattle.entities.specs.Escape.{escaped};
ghost use Rattle.probe.specs.Answers.{first_of, stands_at, Trims, FindsWord, asked, Numbered, code_of, Filled, FilledInPart};

// Where the longest valid beginning of the text ends.
#[unsafe(no_mangle)]
pub extern "C" fn probe_utf8_end(text: &[u8]) -> usize
    ensures { LongestValid text.now result }
{
    probe::probe_utf8_end(text)
}

// Where the trimmed text starts and ends; false if there are not two cells for it.
#[unsafe(no_mangle)]
pub extern "C" fn probe_trim(text: &[u8], out: &mut [u64]) -> bool
    ensures { Trims text.now out.old out.new result }
{
    probe::probe_trim(text, out)
}

// Where the next word starts and ends; false if there is none, or not two cells for it.
#[unsafe(no_mangle)]
pub extern "C" fn probe_next_word(text: &[u8], from: usize, out: &mut [u64]) -> bool
    ensures { FindsWord text.now from out.old out.new result }
{
    probe::probe_next_word(text, from, out)
}

// The first place of the mark, or 2^64 - 1.
#[unsafe(no_mangle)]
pub extern "C" fn probe_find_seq(src: &[u8], from: usize, mark: &[u8]) -> usize
    ensures { result ≡ first_of mark.now src.now from }
{
    probe::probe_find_seq(src, from, mark)
}

// Does the mark stand at the place?
#[unsafe(no_mangle)]
pub extern "C" fn probe_starts_with(src: &[u8], from: usize, mark: &[u8]) -> bool
    ensures { result ≡ stands_at mark.now src.now from }
{
    probe::probe_starts_with(src, from, mark)
}

// Are the two the same but for the case of ASCII letters?
#[unsafe(no_mangle)]
pub extern "C" fn probe_eq_ignore_ascii_case(a: &[u8], b: &[u8]) -> bool
    ensures { result ≡ same_folded a.now b.now }
{
    probe::probe_eq_ignore_ascii_case(a, b)
}

// Where the local part of a tag's name starts.
#[unsafe(no_mangle)]
pub extern "C" fn probe_tag_local(name: &[u8]) -> usize
    ensures { PartFrom name.now result (after_last_colon name.now) }
{
    probe::probe_tag_local(name)
}

// Where a parameter's name starts.
#[unsafe(no_mangle)]
pub extern "C" fn probe_strip_ns(name: &[u8]) -> usize
    ensures { PartFrom name.now result (after_first_colon name.now) }
{
    probe::probe_strip_ns(name)
}

// The number that the text spells: none also if the radix is not from 2 to 36, the largest value
// is past 2^63 - 1, or there is no cell.
#[unsafe(no_mangle)]
pub extern "C" fn probe_numeral(
    text: &[u8],
    radix: u32,
    max: u64,
    minus: bool,
    out: &mut [u64],
) -> u32
    ensures { Numbered (asked text.now radix max minus out.old) out.old out.new result }
{
    probe::probe_numeral(text, radix, max, minus, out)
}

// The character that the name stands for, or 2^32 - 1.
#[unsafe(no_mangle)]
pub extern "C" fn probe_lookup_entity(name: &[u8]) -> u32
    ensures { result ≡ code_of (lookup name.now) }
{
    probe::probe_lookup_entity(name)
}

// The text with its references read, at the start of out: how many bytes, or 2^64 - 1 if out is
// shorter than the text.
#[unsafe(no_mangle)]
pub extern "C" fn probe_decode_entities(text: &[u8], out: &mut [u8]) -> usize
    ensures { Filled (length text.now) (decoded text.now) out.old out.new result }
{
    probe::probe_decode_entities(text, out)
}

// The text as it stands between tags, at the start of out: how many bytes, or 2^64 - 1 if it does
// not fit.
#[unsafe(no_mangle)]
pub extern "C" fn probe_escape_text(text: &[u8], out: &mut [u8]) -> usize
    ensures { FilledInPart (escaped false text.now) out.old out.new result }
{
    probe::probe_escape_text(text, out)
}

// The text as it stands in an attribute's value, likewise.
#[unsafe(no_mangle)]
pub extern "C" fn probe_escape_attr(text: &[u8], out: &mut [u8]) -> usize
    ensures { FilledInPart (escaped true text.now) out.old out.new result }
{
    probe::probe_escape_attr(text, out)
}
