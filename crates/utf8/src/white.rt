// White space as Unicode has it (the property White_Space), which Rust's `trim` and
// `split_whitespace` go by.
ghost use Rattle.std.specs.Prelude.{◌≡◌, ◌==◌, ◌≤◌, ◌<◌, length};
ghost use Rattle.std.specs.List.{list_any};
ghost use Rattle.utf8.specs.WhiteSpace.{is_white};
ghost use Rattle.utf8.specs.Steps.{WhiteAt, WhiteBefore, WhiteEnd, white_start, word_end_of};
ghost use Rattle.utf8.specs.White.{Trimmed, NextWord};

// The code points with the property White_Space.
const WHITE_SPACE: [u32; 25] = [
    0x9, 0xA, 0xB, 0xC, 0xD, 0x20, 0x85, 0xA0, 0x1680, 0x2000, 0x2001, 0x2002, 0x2003, 0x2004,
    0x2005, 0x2006, 0x2007, 0x2008, 0x2009, 0x200A, 0x2028, 0x2029, 0x202F, 0x205F, 0x3000,
];

// A part of a text, from its start up to its end.
#[derive(Clone, Copy)]
pub struct Span {
    pub start: usize,
    pub end: usize,
}

// Is it one of the set? std's `contains` takes longer: of a table that is known, this leaves a few comparisons.
fn is_among(c: u32, set: &[u32]) -> bool
    ensures { result ≡ list_any (λ one. one == c) set.now }
{
    set.iter().any(|one| *one == c)
}

fn is_white(c: u32) -> bool
    ensures { result ≡ is_white c }
{
    is_among(c, &WHITE_SPACE)
}

// How many bytes the white-space character at the place has; 0 where none stands there.
fn any_white_at(src: &[u8], pos: usize) -> usize
    requires { pos < length src.now }
    ensures { WhiteAt src.now pos result }
{
    let width = crate::utf8::sequence_at(src, pos);
    if width != 0 && is_white(crate::utf8::char_at(src, pos, width)) {
        width
    } else {
        0
    }
}

// The same. The visible ASCII characters, which are by far the commonest, and the space are answered
// from their byte (a `match` would test for the space first); the others are given a part of the text
// of their own, so that this one stays in registers.
pub fn white_at(src: &[u8], pos: usize) -> usize
    requires { pos < length src.now }
    ensures { WhiteAt src.now pos result }
{
    let lead = src[pos];
    if 0x20 < lead && lead < 0x80 {
        0
    } else if lead == b' ' {
        1
    } else {
        any_white_at(&src[0..], pos)
    }
}

// How many bytes the white-space character that ends at the place has; 0 where none ends there.
fn white_before(src: &[u8], end: usize) -> usize
    requires { end ≤ length src.now }
    ensures { WhiteBefore src.now end result }
{
    if let &[.., last] = &src[..end] {
        // a visible ASCII character ends no white space
        if 0x20 < last && last < 0x80 {
            return 0;
        }
        if last == b' ' {
            return 1;
        }
    }
    for k in 1..5 {
        if end < k {
            return 0;
        }
        if any_white_at(&src[0..], end - k) == k {
            return k;
        }
    }
    0
}

// Where the white space from the place on ends.
fn white_end(src: &[u8], pos: usize) -> usize
    requires { pos ≤ length src.now }
    ensures { WhiteEnd src.now pos result }
{
    let mut i = pos;
    while i < src.len() {
        let width = white_at(src, i);
        if width == 0 {
            return i;
        }
        i += width;
    }
    i
}

// Where the white space at the text's end starts.
fn white_start(src: &[u8]) -> usize
    ensures { (result ≡ white_start src.now) × (result ≤ length src.now) }
{
    let mut i = src.len();
    while 0 < i {
        let width = white_before(src, i);
        if width == 0 {
            return i;
        }
        i -= width;
    }
    i
}

// The text without the white space at its two ends. Who knows of some there calls it at once.
pub fn trim_white(src: &[u8]) -> Span
    ensures { Trimmed src.now result.start result.end }
{
    let start = white_end(src, 0);
    let end = white_start(src);
    Span {
        start,
        end: end.max(start),
    }
}

// The same. Most texts have a visible ASCII character at both ends; any other is handed on as a part of its own, so that this one stays in
// registers.
pub fn trim(src: &[u8]) -> Span
    ensures { Trimmed src.now result.start result.end }
{
    match src {
        [0x21..=0x7F] | [0x21..=0x7F, .., 0x21..=0x7F] => Span {
            start: 0,
            end: src.len(),
        },
        _ => trim_white(&src[0..]),
    }
}

// Where the word at the place ends: before the next white space.
fn word_end(src: &[u8], pos: usize) -> usize
    requires { pos ≤ length src.now }
    ensures { (result ≡ word_end_of src.now pos) × (pos ≤ result) × (result ≤ length src.now) }
{
    for i in pos..src.len() {
        if white_at(src, i) != 0 {
            return i;
        }
    }
    src.len()
}

// The next word from the place on. Words are what white space parts.
pub fn next_word(src: &[u8], pos: usize) -> Option<Span>
    requires { pos ≤ length src.now }
    ensures { NextWord src.now pos result }
{
    let start = white_end(src, pos);
    if src.len() <= start {
        return None;
    }
    let end = word_end(src, start);
    Some(Span { start, end })
}
