// Offset times: a count and its metric.
ghost use Rattle.std.specs.Prelude.{◌≡◌};
ghost use Rattle.utf8.specs.White.{trimmed};
ghost use Rattle.times.specs.Expressions.{time_decimal, given};
ghost use Rattle.times.specs.Steps.{refused, ends_metric, each_time, rate_time};

use decimals::{DecimalError, Digits};

// The frame rate and the tick rate that a document gives, if it does: document 01 has each as a number and a flag.
#[derive(Clone, Copy)]
pub struct TimingCtx {
    pub frame_rate: f64,
    pub has_frame_rate: bool,
    pub tick_rate: f64,
    pub has_tick_rate: bool,
}

// Why a text has no time. `number_of` gives document 01's number for each answer.
#[derive(Clone, Copy)]
pub enum TimeError {
    // no time
    Invalid,
    // 14: a decimal past its limits
    Beyond,
    // 15: the first six characters of a fraction have more than six bytes
    LongFraction,
    // 16: a product or a sum overflows
    Overflow,
}

impl From<DecimalError> for TimeError {
    ghost from_gives = { λ e t. t ≡ refused e };

    fn from(e: DecimalError) -> TimeError {
        match e {
            DecimalError::Invalid => TimeError::Invalid,
            DecimalError::Beyond => TimeError::Beyond,
        }
    }
}

// Does a metric end in this letter?
pub fn ends_metric(b: u8) -> bool
    ensures { result ≡ ends_metric b }
{
    matches!(b, b'h' | b'm' | b's' | b'f' | b't')
}

// The decimal that a count spells, white space around it passed over.
pub fn read_count(text: &[u8]) -> Result<Digits, DecimalError>
    ensures { result ≡ time_decimal (trimmed text.now) }
{
    let span = utf8::trim(&text[0..]);
    decimals::read_decimal(&text[span.start..span.end], 15, 22)
}

// So many units, each so many microseconds.
pub fn units(text: &[u8], unit: f64) -> Result<i64, TimeError>
    ensures { result ≡ each_time (time_decimal (trimmed text.now)) unit }
{
    let count = read_count(text)?;
    Ok(decimals::truncate(decimals::to_f64(count) * unit))
}

// So many frames or ticks, at a rate of so many a second.
pub fn at_rate(text: &[u8], present: bool, rate: f64) -> Result<i64, TimeError>
    ensures { result ≡ rate_time (time_decimal (trimmed text.now)) (given present rate) }
{
    let count = read_count(text)?;
    if !present || rate <= 0.0 {
        return Err(TimeError::Invalid);
    }
    Ok(decimals::truncate(decimals::to_f64(count) / rate * 1000000.0))
}
