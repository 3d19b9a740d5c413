// UTF-8: well-formed sequences of bytes, where the longest valid beginning of a text ends, and a
// character's bytes.
ghost use Rattle.std.specs.Prelude.{◌≡◌, ◌&&◌, ◌+◌, ◌%◌, ◌≤◌, ◌<◌, length, leb};
ghost use Rattle.std.specs.List.{list_all};
ghost use Rattle.scan.specs.Posts.{Appended};
ghost use Rattle.utf8.specs.Utf8.{boundary, Sequence, char_at, encode, LongestValid};
ghost use Rattle.utf8.specs.Steps.{followed, Bounded, AsciiTo};

// Do all of them go on with a character?
fn all_go_on(bytes: &[u8]) -> bool
    ensures { result ≡ list_all (λ b. leb 0x80 b && leb b 0xBF) bytes.now }
{
    bytes.iter().all(|b| matches!(b, 0x80..=0xBF))
}

// The width, where the second byte lies from low to high and those after it from 0x80 to 0xBF; or 0.
fn follow(src: &[u8], pos: usize, width: usize, low: u8, high: u8) -> usize
    requires { (pos < length src.now) × (2 ≤ width) × (width ≤ 4) }
    ensures { result ≡ followed src.now pos width low high }
{
    if width <= src.len() - pos
        && (low..=high).contains(&src[pos + 1])
        && all_go_on(&src[pos + 2..pos + width])
    {
        width
    } else {
        0
    }
}

// How many bytes the well-formed sequence at the place has; 0 where none stands there.
pub fn sequence_at(src: &[u8], pos: usize) -> usize
    requires { pos < length src.now }
    ensures { Sequence src.now pos result }
{
    match src[pos] {
        0..=0x7F => 1,
        0xC2..=0xDF => follow(src, pos, 2, 0x80, 0xBF),
        0xE0 => follow(src, pos, 3, 0xA0, 0xBF),
        0xE1..=0xEC => follow(src, pos, 3, 0x80, 0xBF),
        0xED => follow(src, pos, 3, 0x80, 0x9F),
        0xEE..=0xEF => follow(src, pos, 3, 0x80, 0xBF),
        0xF0 => follow(src, pos, 4, 0x90, 0xBF),
        0xF1..=0xF3 => follow(src, pos, 4, 0x80, 0xBF),
        0xF4 => follow(src, pos, 4, 0x80, 0x8F),
        _ => 0,
    }
}

// The same, by a look at the two commonest rows first (as patterns they take more tests); the others
// are given a part of the text of their own, so that this one stays in registers.
fn next_sequence(src: &[u8], pos: usize) -> usize
    requires { pos < length src.now }
    ensures { Sequence src.now pos result }
{
    if let &[lead, 0x80..=0xBF, third, ..] = &src[pos..] {
        if 0xC2 <= lead && lead <= 0xDF {
            return 2;
        }
        if 0xE1 <= lead && lead <= 0xEC && 0x80 <= third && third <= 0xBF {
            return 3;
        }
    }
    sequence_at(&src[0..], pos)
}

// A bound of the 64 bytes from the place on: the largest of them. Its loop has no early way out, so
// the compiler takes many at once.
fn largest(src: &[u8], pos: usize) -> u8
    requires { pos + 64 ≤ length src.now }
    ensures { Bounded src.now pos (pos + 64) result }
{
    let mut most = 0;
    for i in 0..64 {
        most = most.max(src[pos + i]);
    }
    most
}

// Where the blocks of 64 ASCII bytes from the place on end.
fn ascii_blocks(src: &[u8], pos: usize) -> usize
    requires { pos ≤ length src.now }
    ensures { AsciiTo src.now pos result }
{
    let mut i = pos;
    while 64 <= src.len() - i {
        if 0x7F < largest(src, i) {
            return i;
        }
        i += 64;
    }
    i
}

// A place up to which the bytes from the place on are ASCII: where they end, or after blocks, which
// are looked at once 16 bytes have been passed. Short runs are the rule between other characters.
#[tactic(auto, using(crate::proofs::Utf8Laws::bounded_more, crate::proofs::Utf8Laws::bounded_join))]
fn ascii_end(src: &[u8], pos: usize) -> usize
    requires { pos ≤ length src.now }
    ensures { AsciiTo src.now pos result }
{
    for i in pos..src.len() {
        if 0x7F < src[i] {
            return i;
        }
        if 16 <= i - pos {
            return ascii_blocks(src, i);
        }
    }
    src.len()
}

// Where the longest valid beginning of the text ends.
pub fn utf8_end(src: &[u8]) -> usize
    ensures { LongestValid src.now result }
{
    let mut i = 0;
    while i < src.len() {
        if src[i] < 0x80 {
            i = ascii_end(src, i + 1);
        } else {
            let width = next_sequence(src, i);
            if width == 0 {
                return i;
            }
            i += width;
        }
    }
    i
}

// What a byte after the first adds to a code point.
fn low_bits(b: u8) -> u32
    ensures { result ≡ b % 64 }
{
    u32::from(b % 64)
}

// The code point of the well-formed sequence, of the given width, at the place.
#[tactic(auto, unfolding(crate::specs::Utf8::char_at))]
pub fn char_at(src: &[u8], pos: usize, width: usize) -> u32
    requires { (0 < width) × (width ≤ 4) × (pos + width ≤ length src.now) }
    ensures { result ≡ char_at src.now pos width }
{
    let a = u32::from(src[pos]);
    match width {
        1 => a,
        2 => a % 32 * 64 + low_bits(src[pos + 1]),
        3 => a % 16 * 4096 + low_bits(src[pos + 1]) * 64 + low_bits(src[pos + 2]),
        _ => {
            let (b, c, d) = (
                low_bits(src[pos + 1]),
                low_bits(src[pos + 2]),
                low_bits(src[pos + 3]),
            );
            a % 8 * 262144 + b * 4096 + c * 64 + d
        }
    }
}

// The character's bytes written at a place; the answer is the place after them.
pub fn put_char(c: u32, out: &mut [u8], at: usize) -> usize
    requires { (c < 1114112) × (at + length (encode c) ≤ length out.old) }
    ensures { Appended (encode c) at out.old out.new result }
{
    match c {
        0..=0x7F => {
            out[at] = c as u8;
            at + 1
        }
        0x80..=0x7FF => {
            out[at] = (0xC0 + c / 64) as u8;
            out[at + 1] = (0x80 + c % 64) as u8;
            at + 2
        }
        0x800..=0xFFFF => {
            out[at] = (0xE0 + c / 4096) as u8;
            out[at + 1] = (0x80 + c / 64 % 64) as u8;
            out[at + 2] = (0x80 + c % 64) as u8;
            at + 3
        }
        _ => {
            out[at] = (0xF0 + c / 262144) as u8;
            out[at + 1] = (0x80 + c / 4096 % 64) as u8;
            out[at + 2] = (0x80 + c / 64 % 64) as u8;
            out[at + 3] = (0x80 + c % 64) as u8;
            at + 4
        }
    }
}

// Does a character start, or the text end, at the place?
pub fn is_boundary(text: &[u8], at: usize) -> bool
    requires { at ≤ length text.now }
    ensures { result ≡ boundary text.now at }
{
    at == 0 || at == text.len() || !matches!(text[at], 0x80..=0xBF)
}
