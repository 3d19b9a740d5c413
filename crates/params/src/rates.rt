// The rates of tt.
ghost use Rattle.std.specs.Prelude.{◌≡◌};
ghost use Rattle.utf8.specs.White.{trimmed};
ghost use Rattle.times.specs.Expressions.{time_decimal};
ghost use Rattle.meaning.specs.Kinds.{with_places};
ghost use Rattle.meaning.specs.Meaning.{rate_answer, rate_of};
ghost use Rattle.styling.specs.Posts.{Of};
ghost use Rattle.params.specs.Named.{rate_said, timing_said, timing_of};

use crate::seek::Sought;
use decimals::DecimalError;
use times::TimingCtx;
use tree::Refusal;
use xml::Attributes;

// The rate that a value is, of the attribute at this place.
fn rate_in(value: &[u8], at: usize) -> Result<Option<f64>, Refusal>
    ensures { rate_said result ≡ rate_answer at (time_decimal (trimmed value.now)) }
{
    let span = utf8::trim(value);
    match decimals::read_decimal(&value[span.start..span.end], 15, 22) {
        Ok(d) => Ok(Some(decimals::to_f64(d))),
        Err(DecimalError::Invalid) => Ok(None),
        Err(DecimalError::Beyond) => Err(Refusal {
            number: 14,
            place: at,
        }),
    }
}

// The rate that the first parameter of this name says.
fn rate_of(attrs: &Attributes<'_>, name: &[u8]) -> Result<Option<f64>, Refusal>
    ensures { Of attrs.now (λ l. rate_said result ≡ rate_of with_places name.now l) }
{
    match crate::seek::seek(attrs, Sought::Param, name) {
        Some(h) => rate_in(&attrs.strings[h.place..h.place + h.len], h.at),
        None => Ok(None),
    }
}

// The timing context of tt: the frame rate is read before the tick rate.
pub fn timing_of(attrs: &Attributes<'_>) -> Result<TimingCtx, Refusal>
    ensures { Of attrs.now (λ l. timing_said result ≡ timing_of l) }
{
    let frame = rate_of(attrs, b"frameRate")?;
    let tick = rate_of(attrs, b"tickRate")?;
    Ok(TimingCtx {
        frame_rate: frame.unwrap_or(0.0),
        has_frame_rate: frame.is_some(),
        tick_rate: tick.unwrap_or(0.0),
        has_tick_rate: tick.is_some(),
    })
}
