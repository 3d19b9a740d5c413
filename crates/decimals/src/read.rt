// Reading a decimal: its sign, its digits as a whole number, and how many stand behind the point.
ghost use Rattle.std.specs.Prelude.{◌≡◌, ◌-◌, ◌^◌, ◌<◌, ◌≤◌, ◌&&◌, ◌++◌, length, take, drop, if◌then◌else◌, nat_le, nat_lt};
ghost use Rattle.scan.specs.Bytes.{digit_byte};
ghost use Rattle.scan.specs.Posts.{Ends};
ghost use Rattle.decimals.specs.Decimal.{is_sign, only_digits, is_exponent, is_word, limited, unsigned_decimal, Reads};
ghost use Rattle.decimals.specs.Steps.{OneMore, Room, Further, Digital, PointAt, Ran};

use scan::Class;

// digits / 10^scale, negative or not
#[derive(Clone, Copy)]
pub struct Digits {
    pub negative: bool,
    pub digits: u64,
    pub scale: u32,
}

// Why a text is no decimal.
#[derive(Clone, Copy)]
pub enum DecimalError {
    // Rust's parser takes no such text
    Invalid,
    // Rust's parser takes it, and the limits do not
    Beyond,
}

// Digits read so far: how many after leading zeros, and their value while they are at most 18.
#[derive(Clone, Copy)]
pub struct Count {
    pub value: u64,
    pub significant: usize,
}

// The value of digits, and where they end.
#[derive(Clone, Copy)]
pub struct Run {
    pub end: usize,
    pub value: u64,
}

// One digit more.
fn count_digit(before: Count, b: u8) -> Count
    requires { (48 ≤ b) × (b ≤ 57) × (before.value < 10 ^ before.significant) × (before.significant < 2 ^ 63) }
    ensures { OneMore before b result }
{
    let d = (b - b'0') as u64;
    if before.significant == 0 && d == 0 {
        return before;
    }
    let significant = before.significant + 1;
    if 18 < significant {
        return Count {
            value: 0,
            significant,
        };
    }
    Count {
        value: before.value * 10 + d,
        significant,
    }
}

// The digits from one place to another, after those read so far.
#[tactic(auto, using(crate::proofs::Counting::going))]
fn count_digits(text: &[u8], from: usize, to: usize, before: Count) -> Count
    requires { Room before text.now from to }
    ensures { Further before text.now from to result }
{
    let mut count = before;
    for i in from..to {
        count = count_digit(count, text[i]);
    }
    count
}

// Where the digits from the place on end: by a loop of its own, since a decimal has few digits, and a call of
// `scan::over` costs more than they do.
#[tactic(auto, using(crate::proofs::Counting::run_ends))]
fn digits_end(text: &[u8], from: usize) -> usize
    requires { from ≤ length text.now }
    ensures { Ends digit_byte text.now from result }
{
    for i in from..text.len() {
        if !scan::is_of(Class::Digit, text[i]) {
            return i;
        }
    }
    text.len()
}

// One digit or more, and nothing else?
#[tactic(auto, using(crate::proofs::Reading::digits_are), unfolding(crate::specs::Decimal::only_digits))]
fn only_digits(text: &[u8]) -> bool
    ensures { result ≡ only_digits text.now }
{
    !text.is_empty() && digits_end(text, 0) == text.len()
}

#[tactic(auto, unfolding(crate::specs::Decimal::is_exponent, crate::specs::Decimal::unsigned))]
fn is_exponent(text: &[u8]) -> bool
    ensures { result ≡ is_exponent text.now }
{
    match text {
        [b'e' | b'E', b'+' | b'-', digits @ ..] => only_digits(digits),
        [b'e' | b'E', digits @ ..] => only_digits(digits),
        _ => false,
    }
}

#[tactic(auto, unfolding(crate::specs::Decimal::is_word))]
fn is_word(text: &[u8]) -> bool
    ensures { result ≡ is_word text.now }
{
    scan::eq_ignore_ascii_case(text, b"inf")
        || scan::eq_ignore_ascii_case(text, b"infinity")
        || scan::eq_ignore_ascii_case(text, b"nan")
}

// A decimal whose digits stand before `whole`, and behind its point from `from` to the text's end.
fn limit(
    text: &[u8],
    negative: bool,
    whole: usize,
    from: usize,
    digits: usize,
    decimals: usize,
) -> Result<Digits, DecimalError>
    requires { Digital text.now whole from × (digits ≤ 18) × (decimals < 2 ^ 32) }
    ensures { result ≡ limited negative (take whole text.now ++ drop from text.now)
        (length text.now - from) digits decimals }
{
    let scale = text.len() - from;
    if decimals < scale {
        return Err(DecimalError::Beyond);
    }
    let none = Count {
        value: 0,
        significant: 0,
    };
    let count = count_digits(text, from, text.len(), count_digits(text, 0, whole, none));
    if digits < count.significant {
        return Err(DecimalError::Beyond);
    }
    Ok(Digits {
        negative,
        digits: count.value,
        scale: scale as u32,
    })
}

// Where the fraction starts: behind a point, or at the place itself.
fn fraction_start(text: &[u8], whole: usize) -> usize
    requires { whole ≤ length text.now }
    ensures { PointAt text.now whole result }
{
    if whole < text.len() && text[whole] == b'.' {
        whole + 1
    } else {
        whole
    }
}

// A decimal without its sign, whatever it is.
fn read_any(
    text: &[u8],
    negative: bool,
    digits: usize,
    decimals: usize,
) -> Result<Digits, DecimalError>
    requires { (digits ≤ 18) × (decimals < 2 ^ 32) }
    ensures { result ≡ unsigned_decimal negative text.now digits decimals }
{
    let whole = digits_end(text, 0);
    let from = fraction_start(text, whole);
    let end = if whole < from {
        digits_end(text, from)
    } else {
        whole
    };
    if whole == 0 && end == from {
        if is_word(text) {
            return Err(DecimalError::Beyond);
        }
        return Err(DecimalError::Invalid);
    }
    if end < text.len() {
        if is_exponent(&text[end..]) {
            return Err(DecimalError::Beyond);
        }
        return Err(DecimalError::Invalid);
    }
    limit(text, negative, whole, from, digits, decimals)
}

// The digits from the place on, read after those of a value: in a text that is so short that a u64 holds them.
#[tactic(auto, using(crate::proofs::Counting::running))]
fn few_digits(text: &[u8], from: usize, before: u64) -> Run
    requires { (from ≤ length text.now) × (length text.now ≤ 18) × (before < 10 ^ from) }
    ensures { Ran before text.now from result }
{
    let mut value = before;
    for i in from..text.len() {
        let b = text[i];
        if !scan::is_of(Class::Digit, b) {
            return Run { end: i, value };
        }
        value = value * 10 + (b - b'0') as u64;
    }
    Run {
        end: text.len(),
        value,
    }
}

// Is there a digit, and are they, and those behind the point, within the limits?
fn is_within(count: usize, scale: usize, digits: usize, decimals: usize) -> bool
    ensures { result ≡ nat_lt 0 count && (nat_le count digits && nat_le scale decimals) }
{
    0 < count && count <= digits && scale <= decimals
}

// A decimal without its sign. One of few digits and nothing else, as most are, is read in one pass.
fn read_unsigned(
    text: &[u8],
    negative: bool,
    digits: usize,
    decimals: usize,
) -> Result<Digits, DecimalError>
    requires { (digits ≤ 18) × (decimals < 2 ^ 32) }
    ensures { result ≡ unsigned_decimal negative text.now digits decimals }
{
    if text.len() <= 18 {
        let first = few_digits(text, 0, 0);
        let whole = first.end;
        let from = fraction_start(text, whole);
        let last = few_digits(text, from, first.value);
        let end = last.end;
        if text.len() <= end {
            let scale = end - from;
            if is_within(whole + scale, scale, digits, decimals) {
                return Ok(Digits {
                    negative,
                    digits: last.value,
                    scale: scale as u32,
                });
            }
        }
    }
    read_any(&text[0..], negative, digits, decimals)
}

// The decimal that the whole text spells, with at most so many digits after leading zeros and so
// many behind the point.
pub fn read_decimal(text: &[u8], digits: usize, decimals: usize) -> Result<Digits, DecimalError>
    requires { (digits ≤ 18) × (decimals < 2 ^ 32) }
    ensures { Reads text.now digits decimals result }
{
    match text {
        [] => Err(DecimalError::Invalid),
        [b'-', rest @ ..] => read_unsigned(rest, true, digits, decimals),
        [b'+', rest @ ..] => read_unsigned(rest, false, digits, decimals),
        _ => read_unsigned(text, false, digits, decimals),
    }
}
