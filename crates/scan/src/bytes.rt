// Classes of bytes, and where a run of them ends. A byte is classified by a `match`, which compiles
// to a few comparisons: these loops are the hot path of reading.
ghost use Rattle.std.specs.Prelude.{◌≡◌, true, false, ◌&&◌, ◌+◌, ◌≤◌, ◌<◌, length, leb};
ghost use Rattle.scan.specs.Bytes.{blank, name_byte, attr_name_byte, digit_byte, member, other};
ghost use Rattle.scan.specs.Posts.{Ends, Passes, Skips};

// The classes that the grammar names.
#[derive(Clone, Copy)]
pub enum Class {
    // space, tab, LF, CR
    Blank,
    // any byte but `<`
    Text,
    // any byte but a blank, `>` and `/`: of a tag name, and of a value without quote marks
    Name,
    // any of those but `=`: of an attribute's name
    AttrName,
    // 0 to 9
    Digit,
}

#[tactic(auto, unfolding(crate::specs::Bytes::blank))]
fn is_blank(b: u8) -> bool
    ensures { result ≡ blank b }
{
    matches!(b, b'\t' | b'\n' | b'\r' | b' ')
}

#[tactic(auto, unfolding(crate::specs::Bytes::blank, crate::specs::Bytes::name_byte))]
fn is_name(b: u8) -> bool
    ensures { result ≡ name_byte b }
{
    !matches!(b, b'\t' | b'\n' | b'\r' | b' ' | b'/' | b'>')
}

#[tactic(auto, unfolding(crate::specs::Bytes::blank, crate::specs::Bytes::attr_name_byte))]
fn is_attr_name(b: u8) -> bool
    ensures { result ≡ attr_name_byte b }
{
    !matches!(b, b'\t' | b'\n' | b'\r' | b' ' | b'/' | b'=' | b'>')
}

#[tactic(auto, unfolding(crate::specs::Bytes::digit_byte))]
fn is_digit(b: u8) -> bool
    ensures { result ≡ digit_byte b }
{
    matches!(b, b'0'..=b'9')
}

// Is the byte of the class?
pub fn is_of(class: Class, b: u8) -> bool
    ensures { result ≡ member class b }
{
    match class {
        Class::Blank => is_blank(b),
        Class::Text => b != b'<',
        Class::Name => is_name(b),
        Class::AttrName => is_attr_name(b),
        Class::Digit => is_digit(b),
    }
}

// Where the run of bytes of the class ends. A text is long as a rule.
pub fn over(src: &[u8], pos: usize, class: Class) -> usize
    requires { pos ≤ length src.now }
    ensures { Ends (member class) src.now pos result }
{
    match class {
        Class::Text => find_far(src, pos, b'<'),
        _ => over_each(src, pos, class),
    }
}

// The same byte by byte: for runs that are short as a rule.
fn over_each(src: &[u8], pos: usize, class: Class) -> usize
    requires { pos ≤ length src.now }
    ensures { Ends (member class) src.now pos result }
{
    over_near(src, pos, src.len(), class)
}

// The same, by blocks first: for runs that are long as a rule.
pub fn over_far(src: &[u8], pos: usize, class: Class) -> usize
    requires { pos ≤ length src.now }
    ensures { Ends (member class) src.now pos result }
{
    over_each(src, skip_runs(src, pos, class), class)
}

// The same of the bytes before `end`. Counted by hand, as `find_each` is: with a `for` over places the compiler steps a counter in each turn
// for every number that the parser takes from the place afterwards.
fn over_near(src: &[u8], pos: usize, end: usize, class: Class) -> usize
    requires { (pos ≤ end) × (end ≤ length src.now) }
    ensures { Skips (member class) src.now pos result × (result < end → Ends (member class) src.now pos result) }
{
    let mut i = pos;
    while i < end {
        if !is_of(class, src[i]) {
            return i;
        }
        i += 1;
    }
    i
}

// The place 8 bytes on, or the length.
fn near_end(src: &[u8], pos: usize) -> usize
    requires { pos ≤ length src.now }
    ensures { (pos ≤ result) × (result ≤ length src.now) }
{
    pos + (src.len() - pos).min(8)
}

// Where the run ends: it is short as a rule, and may be long. Then the text is handed on as a part of its own, so that it
// stays in registers until there.
pub fn over_long(src: &[u8], pos: usize, class: Class) -> usize
    requires { pos ≤ length src.now }
    ensures { Ends (member class) src.now pos result }
{
    let end = near_end(src, pos);
    let i = over_near(src, pos, end, class);
    if i < end {
        return i;
    }
    over_far(&src[0..], i, class)
}

// The first place of the byte, or the length. Four tests to a turn, where a `for` makes one: a value ends within two or three turns
// as a rule.
pub fn find_byte(src: &[u8], pos: usize, b: u8) -> usize
    requires { pos ≤ length src.now }
    ensures { Ends (other b) src.now pos result }
{
    let mut i = pos;
    while 4 <= src.len() - i {
        if src[i] == b {
            return i;
        }
        if src[i + 1] == b {
            return i + 1;
        }
        if src[i + 2] == b {
            return i + 2;
        }
        if src[i + 3] == b {
            return i + 3;
        }
        i += 4;
    }
    find_each(src, i, b)
}

// The same byte by byte: for the end of the text.
fn find_each(src: &[u8], pos: usize, b: u8) -> usize
    requires { pos ≤ length src.now }
    ensures { Ends (other b) src.now pos result }
{
    let mut i = pos;
    while i < src.len() {
        if src[i] == b {
            return i;
        }
        i += 1;
    }
    i
}

// Is the byte among the 16 from the place on? Its loop has no early way out, so the compiler takes
// the 16 at once.
#[tactic(auto, using(crate::proofs::Runs::passes_more))]
fn has_byte(src: &[u8], pos: usize, b: u8) -> bool
    requires { pos + 16 ≤ length src.now }
    ensures { result ≡ false → Passes (other b) src.now pos (pos + 16) }
{
    let mut has = false;
    for i in 0..16 {
        if src[pos + i] == b {
            has = true;
        }
    }
    has
}

// Are the 16 bytes from the place on all between the two?
#[tactic(auto, using(crate::proofs::Runs::passes_more))]
fn all_between(src: &[u8], pos: usize, low: u8, high: u8) -> bool
    requires { pos + 16 ≤ length src.now }
    ensures { result ≡ true → Passes (λ b. leb low b && leb b high) src.now pos (pos + 16) }
{
    let mut all = true;
    for k in 0..16 {
        if !(low..=high).contains(&src[pos + k]) {
            all = false;
        }
    }
    all
}

// Are they of the class, as far as a block can be told at once? In names most bytes are past `>`, and most blanks are spaces.
fn is_run(src: &[u8], pos: usize, class: Class) -> bool
    requires { pos + 16 ≤ length src.now }
    ensures { result ≡ true → Passes (member class) src.now pos (pos + 16) }
{
    match class {
        Class::Blank => all_between(src, pos, b' ', b' '),
        Class::Name | Class::AttrName | Class::Text => all_between(src, pos, b'?', 0xFF),
        Class::Digit => all_between(src, pos, b'0', b'9'),
    }
}

// Where the blocks of the class end.
fn skip_runs(src: &[u8], pos: usize, class: Class) -> usize
    requires { pos ≤ length src.now }
    ensures { Skips (member class) src.now pos result }
{
    let mut i = pos;
    while 16 <= src.len() - i {
        if !is_run(src, i, class) {
            return i;
        }
        i += 16;
    }
    i
}

// Where the blocks of 16 bytes without the byte end.
fn skip_blocks(src: &[u8], pos: usize, b: u8) -> usize
    requires { pos ≤ length src.now }
    ensures { Skips (other b) src.now pos result }
{
    let mut i = pos;
    while 16 <= src.len() - i {
        if has_byte(src, i, b) {
            return i;
        }
        i += 16;
    }
    i
}

// The first place of the byte, or the length, by blocks: where it is far as a rule.
pub fn find_far(src: &[u8], pos: usize, b: u8) -> usize
    requires { pos ≤ length src.now }
    ensures { Ends (other b) src.now pos result }
{
    find_byte(src, skip_blocks(src, pos, b), b)
}
