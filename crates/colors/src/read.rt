// A colour read from its text.
ghost use Rattle.std.specs.Prelude.{Ok, ◌≡◌, ◌+◌, ◌≤◌, ◌<◌, length, ltb, true, false};
ghost use Rattle.numerals.specs.Numerals.{digit_of, digits_only, numeral_of};
ghost use Rattle.scan.specs.Split.{split_at};
ghost use Rattle.colors.specs.Colors as colors;
ghost use Rattle.colors.specs.Colors.{channel_of, color_of, hex_color, decimal_channel, rgb_parts, is_rgb, color_in, opaque, ReadsColor};
ghost use Rattle.colors.specs.Steps.{Channels, channel_at, hex_channels, alpha_at, three_hex, HexLength};

#[derive(Clone, Copy)]
pub struct Rgba {
    pub r: u8,
    pub g: u8,
    pub b: u8,
    pub a: u8,
}

// Why a text, or a part of one, is no colour or channel. `number_of` gives document 01's number for each answer.
#[derive(Clone, Copy)]
pub enum ColorError {
    // no colour
    Invalid,
    // 15: cut inside a character
    Cut,
}

// The channel that a numeral without a sign spells.
#[tactic(auto, using(crate::proofs::Reading::small))]
fn channel(numeral: &[u8], radix: u64) -> Result<u8, ColorError>
    requires { (2 ≤ radix) × (radix ≤ 36) }
    ensures { result ≡ channel_of (numeral_of numeral.now radix 255 false) }
{
    let w = numerals::read_numeral(numeral, radix, 255, false).ok_or(ColorError::Invalid)?;
    Ok(w.magnitude as u8)
}

// The channel from the place, of one hexadecimal digit that counts twice, or of two.
#[tactic(auto, using(crate::proofs::Reading::channel_places))]
fn hex_channel(text: &[u8], at: usize, width: usize) -> Result<u8, ColorError>
    requires { (1 ≤ width) × (width ≤ 2) × (at + width ≤ length text.now) }
    ensures { result ≡ channel_at text.now at width }
{
    if !utf8::is_boundary(text, at) || !utf8::is_boundary(text, at + width) {
        return Err(ColorError::Cut);
    }
    if width == 1 {
        let twice = [text[at], text[at]];
        channel(&twice, 16)
    } else {
        channel(&text[at..at + width], 16)
    }
}

// The alpha of eight digits; fewer are opaque.
fn alpha(text: &[u8]) -> Result<u8, ColorError>
    ensures { result ≡ alpha_at text.now }
{
    if text.len() == 8 {
        hex_channel(text, 6, 2)
    } else {
        Ok(255)
    }
}

// The colour of four channels: the first that is none, or is cut, decides.
fn color_of(
    red: Result<u8, ColorError>,
    green: Result<u8, ColorError>,
    blue: Result<u8, ColorError>,
    alpha: Result<u8, ColorError>,
) -> Result<Rgba, ColorError>
    ensures { result ≡ color_of red green blue alpha }
{
    Ok(Rgba {
        r: red?,
        g: green?,
        b: blue?,
        a: alpha?,
    })
}

// Three channels of the width, and the alpha.
fn any_color(text: &[u8], width: usize) -> Result<Rgba, ColorError>
    requires { Channels text.now width }
    ensures { result ≡ hex_channels text.now width (alpha_at text.now) }
{
    let red = hex_channel(text, 0, width);
    let green = hex_channel(text, width, width);
    let blue = hex_channel(text, 2 * width, width);
    color_of(red, green, blue, alpha(text))
}

// Is a byte a hexadecimal digit? Each bit of two words stands for an ASCII character: digits and letters come in no order, and a branch between
// them would be guessed wrong.
#[tactic(auto, using(crate::proofs::Digits::hex_bits))]
fn is_hex_digit(b: u8) -> bool
    ensures { result ≡ ltb (digit_of b) 16 }
{
    if 127 < b {
        return false;
    }
    let digits: u64 = if b < 64 {
        0x03FF_0000_0000_0000
    } else {
        0x7E_0000_007E
    };
    (digits >> (b % 64)) % 2 == 1
}

// Are the three bytes from the place on?
fn are_hex_digits(text: &[u8], at: usize) -> bool
    requires { at + 3 ≤ length text.now }
    ensures { result ≡ three_hex text.now at }
{
    is_hex_digit(text[at]) && is_hex_digit(text[at + 1]) && is_hex_digit(text[at + 2])
}

// Are all bytes? There are 3, 6 or 8 of them; a loop takes longer.
#[tactic(auto, using(crate::proofs::Digits::hex_by_three))]
fn is_hex(text: &[u8]) -> bool
    requires { HexLength text.now }
    ensures { result ≡ digits_only 16 text.now }
{
    are_hex_digits(text, 0)
        && (text.len() == 3
            || are_hex_digits(text, 3)
                && (text.len() == 6 || is_hex_digit(text[6]) && is_hex_digit(text[7])))
}

// The value of a byte that is a hexadecimal digit, without a branch.
fn hex_digit(b: u8) -> u8
    requires { digit_of b < 16 }
    ensures { result ≡ digit_of b }
{
    b % 16 + b / 64 * 9
}

// The channel from the place, where all bytes are digits.
fn digit_channel(text: &[u8], at: usize, width: usize) -> u8
    requires { (1 ≤ width) × (width ≤ 2) × (at + width ≤ length text.now) × (digits_only 16 text.now ≡ true) }
    ensures { Ok result ≡ channel_at text.now at width }
{
    hex_digit(text[at]) * 16 + hex_digit(text[at + width - 1])
}

// The same colour, where all bytes are digits.
fn digit_color(text: &[u8], width: usize) -> Result<Rgba, ColorError>
    requires { Channels text.now width × (digits_only 16 text.now ≡ true) }
    ensures { result ≡ hex_channels text.now width (alpha_at text.now) }
{
    let a = if text.len() == 8 {
        digit_channel(text, 6, 2)
    } else {
        255
    };
    let r = digit_channel(text, 0, width);
    let g = digit_channel(text, width, width);
    let b = digit_channel(text, 2 * width, width);
    Ok(Rgba { r, g, b, a })
}

// What follows a `#`: three digits, or two for each of three or four channels. Anything but digits is
// given a part of the text of its own, so that this one stays in registers.
#[tactic(auto, using(crate::proofs::Digits::hex_widths))]
fn hex_color(text: &[u8]) -> Result<Rgba, ColorError>
    ensures { result ≡ hex_color text.now }
{
    let width = match text.len() {
        3 => 1,
        6 | 8 => 2,
        _ => return Err(ColorError::Invalid),
    };
    if is_hex(text) {
        digit_color(text, width)
    } else {
        any_color(&text[0..], width)
    }
}

// A decimal channel, white space around it passed over: after a comma some stands as a rule.
fn decimal_channel(text: &[u8]) -> Result<u8, ColorError>
    ensures { result ≡ decimal_channel text.now }
{
    let span = utf8::trim_white(text);
    channel(&text[span.start..span.end], 10)
}

// Three channels between commas; any other number of them is left to the names.
#[tactic(auto, using(crate::proofs::Reading::comma_parts))]
fn rgb_color(text: &[u8], inside: &[u8]) -> Result<Rgba, ColorError>
    ensures { result ≡ rgb_parts text.now (split_at 44 inside.now) }
{
    let one = scan::find_byte(inside, 0, b',');
    if inside.len() <= one {
        return crate::named::named(text);
    }
    let two = scan::find_byte(inside, one + 1, b',');
    if inside.len() <= two {
        return crate::named::named(text);
    }
    if scan::find_byte(inside, two + 1, b',') < inside.len() {
        return crate::named::named(text);
    }
    let red = decimal_channel(&inside[..one]);
    let green = decimal_channel(&inside[one + 1..two]);
    let blue = decimal_channel(&inside[two + 1..]);
    color_of(red, green, blue, Ok(255))
}

#[tactic(auto, unfolding(crate::specs::Colors::is_rgb, scan::specs::Marks::starts_at))]
fn is_rgb(text: &[u8]) -> bool
    ensures { result ≡ is_rgb text.now }
{
    matches!(text, [b'r', b'g', b'b', b'(', .., b')'])
}

// A colour without white space around it.
#[tactic(auto, using(crate::proofs::Reading::color_forms))]
fn trimmed_color(text: &[u8]) -> Result<Rgba, ColorError>
    ensures { result ≡ colors.color text.now }
{
    if !text.is_empty() && text[0] == b'#' {
        hex_color(&text[1..])
    } else if is_rgb(text) {
        rgb_color(text, &text[4..text.len() - 1])
    } else {
        crate::named::named(text)
    }
}

// The colour that a text is.
pub fn parse_ttml_color_rgba(text: &[u8]) -> Result<Rgba, ColorError>
    ensures { ReadsColor (color_in text.now) result }
{
    let span = utf8::trim(&text[0..]);
    trimmed_color(&text[span.start..span.end])
}

// The same without its alpha, which is given as 255.
pub fn parse_ttml_color_rgb(text: &[u8]) -> Result<Rgba, ColorError>
    ensures { ReadsColor (opaque (color_in text.now)) result }
{
    let c = parse_ttml_color_rgba(text)?;
    Ok(Rgba { a: 255, ..c })
}
