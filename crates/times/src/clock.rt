// Clock times, and the choice between them and offset times.
ghost use Rattle.std.specs.Prelude.{Some, ◌≡◌, ◌≤◌, ◌<◌, min, length, take};
ghost use Rattle.scan.specs.Split.{split_at};
ghost use Rattle.times.specs.Expressions as expressions;
ghost use Rattle.times.specs.Expressions.{time_decimal, time_of, frame_rate_of, frames_in, chars_length, micros_of, seconds_of, clock_time};
ghost use Rattle.times.specs.Expressions.{time_in, ReadsTime};
ghost use Rattle.times.specs.Steps as steps;
ghost use Rattle.times.specs.Steps.{number, after_hours, after_minutes, after_seconds};

use crate::offset::{TimeError, TimingCtx};
use decimals::DecimalError;
use numerals::Whole;

fn integer(text: &[u8]) -> Option<Whole>
    ensures { result ≡ expressions.integer text.now }
{
    numerals::read_numeral(text, 10, 9223372036854775807, true)
}

fn time_of(sum: Option<i64>) -> Result<i64, TimeError>
    ensures { result ≡ time_of sum }
{
    sum.ok_or(TimeError::Overflow)
}

fn plus(a: Option<i64>, b: Option<i64>) -> Option<i64>
    ensures { result ≡ steps.plus a b }
{
    crate::sums::add(a?, b?)
}

// How many bytes the first six characters have; 7 where they have more than six.
fn six_chars(text: &[u8]) -> usize
    ensures { (result ≡ min (chars_length 6 text.now) 7) × (result ≤ 7) }
{
    let mut chars: usize = 0;
    for i in 0..text.len() {
        match text[i] {
            0x80..=0xBF => {}
            _ => {
                if chars == 6 {
                    return i;
                }
                chars += 1;
            }
        }
        if i == 6 {
            return 7;
        }
    }
    text.len()
}

// The microseconds of a fraction of up to six bytes, zeros added; 0 where it is no number.
fn micros(text: &[u8], len: usize) -> Option<i64>
    requires { (len ≤ 6) × (len ≤ length text.now) }
    ensures { result ≡ Some (micros_of (take len text.now)) }
{
    let mut six = [b'0'; 6];
    six[..len].copy_from_slice(&text[..len]);
    match integer(&six) {
        Some(w) => crate::sums::times(w, 1),
        None => Some(0),
    }
}

fn fractioned(seconds: Whole, fraction: &[u8]) -> Result<i64, TimeError>
    ensures { result ≡ steps.fractioned (number seconds) fraction.now }
{
    let len = six_chars(fraction);
    if 6 < len {
        return Err(TimeError::LongFraction);
    }
    time_of(plus(crate::sums::times(seconds, 1000000), micros(fraction, len)))
}

fn seconds(text: &[u8]) -> Result<i64, TimeError>
    ensures { result ≡ seconds_of text.now }
{
    let point = scan::find_byte(text, 0, b'.');
    let Some(w) = integer(&text[..point]) else {
        return Err(TimeError::Invalid);
    };
    if point < text.len() {
        fractioned(w, &text[point + 1..])
    } else {
        time_of(crate::sums::times(w, 1000000))
    }
}

// Hours and minutes, by the microseconds of each.
fn in_units(h: Whole, hour: u64, m: Whole, minute: u64) -> Option<i64>
    requires { (0 < hour) × (0 < minute) }
    ensures { result ≡ steps.in_units (number h) hour (number m) minute }
{
    plus(crate::sums::times(h, hour), crate::sums::times(m, minute))
}

fn summed(h: Whole, m: Whole, s: Result<i64, TimeError>) -> Result<i64, TimeError>
    ensures { result ≡ steps.summed (number h) (number m) s }
{
    let us = s?;
    time_of(plus(in_units(h, 3600000000, m, 60000000), Some(us)))
}

fn framed(us: i64, frames: &[u8], ctx: TimingCtx) -> Result<i64, TimeError>
    ensures { result ≡ frames_in us (time_decimal frames.now) (frame_rate_of ctx) }
{
    match decimals::read_decimal(frames, 15, 22) {
        Ok(d) => {
            if ctx.has_frame_rate && 0.0 < ctx.frame_rate {
                let more = decimals::truncate(decimals::to_f64(d) / ctx.frame_rate * 1000000.0);
                return time_of(crate::sums::add(us, more));
            }
            Ok(us)
        }
        Err(DecimalError::Invalid) => Ok(us),
        Err(DecimalError::Beyond) => Err(TimeError::Beyond),
    }
}

// The clock time whose hours are h and whose minutes start at a place.
fn after_hours(h: Whole, text: &[u8], ctx: TimingCtx) -> Result<i64, TimeError>
    ensures { result ≡ after_hours (number h) (split_at 58 text.now) ctx }
{
    let colon = scan::find_byte(text, 0, b':');
    let Some(m) = integer(&text[..colon]) else {
        return Err(TimeError::Invalid);
    };
    if text.len() <= colon {
        return time_of(in_units(h, 3600000000, m, 60000000));
    }
    after_minutes(h, m, &text[colon + 1..], ctx)
}

#[tactic(auto, using(crate::proofs::Parts::second_parts))]
fn after_minutes(h: Whole, m: Whole, text: &[u8], ctx: TimingCtx) -> Result<i64, TimeError>
    ensures { result ≡ after_minutes (number h) (number m) (split_at 58 text.now) ctx }
{
    let colon = scan::find_byte(text, 0, b':');
    let us = summed(h, m, seconds(&text[..colon]))?;
    if text.len() <= colon {
        return Ok(us);
    }
    after_seconds(us, &text[colon + 1..], ctx)
}

fn after_seconds(us: i64, text: &[u8], ctx: TimingCtx) -> Result<i64, TimeError>
    ensures { result ≡ after_seconds us (split_at 58 text.now) ctx }
{
    let colon = scan::find_byte(text, 0, b':');
    framed(us, &text[..colon], ctx)
}

fn clock_time(text: &[u8], ctx: TimingCtx) -> Result<i64, TimeError>
    ensures { result ≡ clock_time text.now ctx }
{
    let colon = scan::find_byte(text, 0, b':');
    if text.len() <= colon {
        return Err(TimeError::Invalid);
    }
    let Some(h) = integer(&text[..colon]) else {
        return Err(TimeError::Invalid);
    };
    after_hours(h, &text[colon + 1..], ctx)
}

// A time expression without white space around it, the steps in TTML's order: a clock time, then the metrics h, m, s, ms, f, t.
fn expression(text: &[u8], ctx: TimingCtx) -> Result<i64, TimeError>
    requires { 0 < length text.now }
    ensures { result ≡ expressions.expression text.now ctx }
{
    let end = text.len() - 1;
    let last = text[end];
    if !crate::offset::ends_metric(last) {
        return clock_time(text, ctx);
    }
    match last {
        b'h' => crate::offset::units(&text[..end], 3600000000.0),
        b'm' => crate::offset::units(&text[..end], 60000000.0),
        b's' => {
            // no count of seconds ends in m
            if end == 0 || text[end - 1] != b'm' {
                return crate::offset::units(&text[..end], 1000000.0);
            }
            crate::offset::units(&text[..end - 1], 1000.0)
        }
        b'f' => crate::offset::at_rate(&text[..end], ctx.has_frame_rate, ctx.frame_rate),
        _ => crate::offset::at_rate(&text[..end], ctx.has_tick_rate, ctx.tick_rate),
    }
}

// The time that a text is, in microseconds.
pub fn parse_ttml_time(text: &[u8], ctx: TimingCtx) -> Result<i64, TimeError>
    ensures { ReadsTime (time_in text.now ctx) result }
{
    if text.len() == 12 {
        let ms = crate::usual::usual_millis(text);
        if ms < 360000000 {
            return Ok((ms * 1000) as i64);
        }
    }
    let span = utf8::trim(&text[0..]);
    if span.end <= span.start {
        return Err(TimeError::Invalid);
    }
    expression(&text[span.start..span.end], ctx)
}
