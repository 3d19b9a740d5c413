#![tactic(auto)]
// Replays recorded answers of the Rust on decimals, times and colours: the list on standard input
// says how it was made. Prints each line that these libraries answer otherwise, and the counts.
//
//     kind  given                                  answered
//     f     a text, read as a decimal              the 8 bytes of its f64
//     z     a text, read as a size                 the 4 bytes of its f32, and what `{}` prints
//     t     rates and a text, read as a time       the 8 bytes of its i64
//     w     the 8 bytes of an i64, written         a text
//     c     a text, read as a colour               its 4 bytes
//     h     the 3 or 4 bytes of a colour, written  a text
//
// The bytes of a number stand from the highest to the lowest. Rates are a byte and what it
// announces: 1 the 8 bytes of a frame rate, 2 of a tick rate, 3 of both in this order, 0 none. Where
// a text is none of its kind no bytes are answered, and where it meets a number of document 01,
// that number as one byte.
ghost use Rattle.std.specs.Prelude.{◌+◌, ◌^◌, ◌<◌};

use colors::{ColorError, Rgba};
use decimals::{DecimalError, Size};
use replaying::Tally;
use times::{TimeError, TimingCtx};

// standard input
const STDIN_FILENO: i32 = 0;

fn main() {
    let mut space = [0u8; 262144];
    let got = io::read_full(STDIN_FILENO, &mut space);
    replaying::print_tally(replay(&space[..got]));
}

// Every line of the list.
fn replay(list: &[u8]) -> Tally {
    let mut tally = replaying::no_lines();
    let mut pos = 0;
    while pos < list.len() {
        let end = scan::find_byte(list, pos, b'\n');
        tally = replaying::counted(tally, &list[pos..end], agrees(&list[pos..end]));
        pos = end + 1;
    }
    tally
}

// Do these libraries answer what the line says?
fn agrees(line: &[u8]) -> bool {
    let mut given = [0u8; 512];
    let mut told = [0u8; 512];
    let fields = replaying::read_line(line, &mut given, &mut told);
    fields.whole && tells(fields.kind, &given[..fields.given], &told[..fields.told])
}

// Is what was told what the libraries answer?
fn tells(kind: u8, given: &[u8], told: &[u8]) -> bool {
    match kind {
        b'f' => tells_float(given, told),
        b'z' => tells_size(given, told),
        b't' => tells_time(given, told),
        b'w' => tells_clock(given, told),
        b'c' => tells_color(given, told),
        _ => tells_color_text(given, told),
    }
}

// Is it this one byte?
fn is_one(told: &[u8], b: u8) -> bool {
    told == [b].as_slice()
}

// Is it the 8 bytes of this number?
fn is_eight(told: &[u8], n: u64) -> bool {
    told == n.to_be_bytes().as_slice()
}

// Is it what was written at the start of a table?
fn is_written(told: &[u8], out: &[u8], w: Option<usize>) -> bool {
    match w {
        Some(n) => n <= out.len() && told == &out[..n],
        None => false,
    }
}

// The byte at a place, or 0 past the end.
fn byte(bytes: &[u8], at: usize) -> u8 {
    if at < bytes.len() { bytes[at] } else { 0 }
}

// The number of the first 4 bytes, and of 8.
fn half(bytes: &[u8]) -> u32 {
    u32::from_be_bytes([
        byte(bytes, 0),
        byte(bytes, 1),
        byte(bytes, 2),
        byte(bytes, 3),
    ])
}

fn eight(bytes: &[u8], at: usize) -> [u8; 8]
    requires { at + 8 < 2 ^ 63 }
{
    [
        byte(bytes, at),
        byte(bytes, at + 1),
        byte(bytes, at + 2),
        byte(bytes, at + 3),
        byte(bytes, at + 4),
        byte(bytes, at + 5),
        byte(bytes, at + 6),
        byte(bytes, at + 7),
    ]
}

fn tells_float(text: &[u8], told: &[u8]) -> bool {
    match decimals::read_decimal(text, 15, 22) {
        Ok(d) => is_eight(told, f64::to_bits(decimals::to_f64(d))),
        Err(DecimalError::Invalid) => told.is_empty(),
        Err(DecimalError::Beyond) => is_one(told, 14),
    }
}

fn tells_size(text: &[u8], told: &[u8]) -> bool {
    match decimals::read_decimal(text, 6, 10) {
        Ok(d) => is_size(told, decimals::size_of(d)),
        Err(DecimalError::Invalid) => told.is_empty(),
        Err(DecimalError::Beyond) => is_one(told, 14),
    }
}

// What `is_size` of the library does not take as a size answers no bytes.
fn is_size(told: &[u8], size: Size) -> bool {
    if decimals::is_size(size) {
        is_value(told, size.value) && is_spelling(told, size)
    } else {
        told.is_empty()
    }
}

// Are the first 4 bytes those of this float?
fn is_value(told: &[u8], value: f32) -> bool {
    !value.is_nan() && value.to_bits() == half(told)
}

// Are the bytes behind those 4 the spelling?
fn is_spelling(told: &[u8], size: Size) -> bool {
    if told.len() < 4 || 10 < size.scale {
        return false;
    }
    let mut out = [0u8; 64];
    let w = decimals::spell(&mut out, 0, size);
    is_written(&told[4..], &out, w)
}

// The float of 8 bytes; 0 for a NaN, which no document has as a rate.
fn rate(given: &[u8], at: usize) -> f64
    requires { at + 8 < 2 ^ 63 }
{
    let bits = u64::from_be_bytes(eight(given, at));
    if 0x7FF0_0000_0000_0000 < bits % 0x8000_0000_0000_0000 {
        return 0.0;
    }
    f64::from_bits(bits)
}

// The rates that the first byte announces, and the text behind them.
fn tells_time(given: &[u8], told: &[u8]) -> bool {
    match byte(given, 0) {
        0 => tells_timed(given, 1, no_rates(), told),
        1 => tells_timed(given, 9, frame_rate(rate(given, 1)), told),
        2 => tells_timed(given, 9, tick_rate(rate(given, 1)), told),
        _ => tells_timed(given, 17, both_rates(rate(given, 1), rate(given, 9)), told),
    }
}

fn no_rates() -> TimingCtx {
    TimingCtx {
        frame_rate: 0.0,
        has_frame_rate: false,
        tick_rate: 0.0,
        has_tick_rate: false,
    }
}

fn frame_rate(frames: f64) -> TimingCtx {
    TimingCtx {
        frame_rate: frames,
        has_frame_rate: true,
        ..no_rates()
    }
}

fn tick_rate(ticks: f64) -> TimingCtx {
    TimingCtx {
        tick_rate: ticks,
        has_tick_rate: true,
        ..no_rates()
    }
}

fn both_rates(frames: f64, ticks: f64) -> TimingCtx {
    TimingCtx {
        tick_rate: ticks,
        has_tick_rate: true,
        ..frame_rate(frames)
    }
}

fn tells_timed(given: &[u8], start: usize, ctx: TimingCtx, told: &[u8]) -> bool {
    if given.len() < start {
        return false;
    }
    match times::parse_ttml_time(&given[start..], ctx) {
        Ok(us) => is_time(told, us),
        Err(TimeError::Invalid) => told.is_empty(),
        Err(TimeError::Beyond) => is_one(told, 14),
        Err(TimeError::LongFraction) => is_one(told, 15),
        Err(TimeError::Overflow) => is_one(told, 16),
    }
}

// Is it the 8 bytes of this time?
fn is_time(told: &[u8], us: i64) -> bool {
    told == us.to_be_bytes().as_slice()
}

fn tells_clock(given: &[u8], told: &[u8]) -> bool {
    let mut out = [0u8; 64];
    let w = times::format_ts(&mut out, 0, i64::from_be_bytes(eight(given, 0)));
    is_written(told, &out, w)
}

fn tells_color(text: &[u8], told: &[u8]) -> bool {
    match colors::parse_ttml_color_rgba(text) {
        Ok(c) => is_color(told, c),
        Err(ColorError::Invalid) => told.is_empty(),
        Err(ColorError::Cut) => is_one(told, 15),
    }
}

// Is it the 4 bytes of this colour?
fn is_color(told: &[u8], c: Rgba) -> bool {
    told == [c.r, c.g, c.b, c.a].as_slice()
}

fn tells_color_text(given: &[u8], told: &[u8]) -> bool {
    let c = Rgba {
        r: byte(given, 0),
        g: byte(given, 1),
        b: byte(given, 2),
        a: byte(given, 3),
    };
    let mut out = [0u8; 64];
    let w = if given.len() == 4 {
        colors::append_rgba(&mut out, 0, c)
    } else {
        colors::append_rgb(&mut out, 0, c)
    };
    is_written(told, &out, w)
}
