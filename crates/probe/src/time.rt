// C names for times. What an answer fills is written only where it is one.
ghost use Rattle.std.specs.Prelude.{◌≡◌, length, ltb};
ghost use Rattle.times.specs.Expressions.{time_in};
ghost use Rattle.times.specs.Written.{clock_text};
ghost use Rattle.probe.specs.Answers.{Answered, Filled};
ghost use Rattle.probe.specs.Times.{timing, time_code, time_cells};

use times::{TimeError, TimingCtx};

// The time that the text is: 0 none, 1 one, with its microseconds in the first cell, or document
// 01's number 14, 15 or 16. 2 if there is no cell.
pub fn probe_time(
    text: &[u8],
    frame_rate: f64,
    has_frame_rate: bool,
    tick_rate: f64,
    has_tick_rate: bool,
    out: &mut [i64],
) -> u32
    ensures { Answered (ltb 0 (length out.old))
        (time_code (time_in text.now (timing frame_rate has_frame_rate tick_rate has_tick_rate)))
        (time_cells (time_in text.now (timing frame_rate has_frame_rate tick_rate has_tick_rate))) 2 out.old
        out.new result }
{
    if out.is_empty() {
        return 2;
    }
    let ctx = TimingCtx {
        frame_rate,
        has_frame_rate,
        tick_rate,
        has_tick_rate,
    };
    match times::parse_ttml_time(text, ctx) {
        Ok(us) => {
            out[0] = us;
            1
        }
        Err(TimeError::Invalid) => 0,
        Err(TimeError::Beyond) => 14,
        Err(TimeError::LongFraction) => 15,
        Err(TimeError::Overflow) => 16,
    }
}

// The time as a clock time, at the start of out: how many bytes, or 2^64 - 1 if it does not fit.
pub fn probe_format_ts(us: i64, out: &mut [u8]) -> usize
    ensures { Filled (length (clock_text us)) (clock_text us) out.old out.new result }
{
    crate::place_of(times::format_ts(out, 0, us))
}
