#![tactic(auto)]
// Times of an element: its begin counted from a reference, and its end.
ghost use Rattle.std.specs.Prelude.{◌≡◌};
ghost use Rattle.meaning.specs.Kinds.{with_places};
ghost use Rattle.meaning.specs.Timing.{time_of, end_of};
ghost use Rattle.styling.specs.Posts.{Of, moment_said};
ghost use Rattle.intervals.specs.Steps.{time_given, giving_said, timed_said, begin_from, start_from, end_from};
ghost use Rattle.intervals.specs.Steps.{interval_of, single_of};

use times::TimingCtx;
use tree::Refusal;
use xml::Attributes;

// What the attribute of this name says.
fn time_given(
    attrs: &Attributes<'_>,
    place: usize,
    name: &[u8],
    ctx: TimingCtx,
) -> Result<Option<i64>, Refusal>
    ensures { Of attrs.now (λ l.
        giving_said result ≡ time_of with_places ctx place name.now l) }
{
    styling::time_attr(attrs, name, ctx, place)
}

// When an element begins by itself: its begin, or 0.
pub fn begin_of(attrs: &Attributes<'_>, place: usize, ctx: TimingCtx) -> Result<i64, Refusal>
    ensures { Of attrs.now (λ l.
        moment_said result ≡ begin_from ctx place l) }
{
    let begin = time_given(attrs, place, b"begin", ctx)?;
    Ok(begin.unwrap_or(0))
}

// When a container begins: its begin, counted from a reference.
pub fn start_of(
    attrs: &Attributes<'_>,
    place: usize,
    ctx: TimingCtx,
    reference: i64,
) -> Result<i64, Refusal>
    ensures { Of attrs.now (λ l.
        moment_said result ≡ start_from ctx place reference l) }
{
    let begin = time_given(attrs, place, b"begin", ctx)?;
    styling::add_times(reference, begin.unwrap_or(0), place)
}

// When a container ends: as its dur says, or with its children.
pub fn lasting_to(
    attrs: &Attributes<'_>,
    place: usize,
    ctx: TimingCtx,
    start: i64,
    children: i64,
) -> Result<i64, Refusal>
    ensures { Of attrs.now (λ l.
        moment_said result ≡ end_from ctx place start children l) }
{
    match time_given(attrs, place, b"dur", ctx)? {
        Some(lasts) => styling::add_times(start, lasts, place),
        None => Ok(children),
    }
}

// When a p begins and ends.
#[derive(Clone, Copy)]
pub struct Interval {
    pub start: i64,
    pub end: i64,
}

// Its end counts from the reference, its dur from its own start; end wins.
fn end_of(
    start: i64,
    reference: i64,
    end: Option<i64>,
    dur: Option<i64>,
    place: usize,
) -> Result<i64, Refusal>
    ensures { moment_said result ≡ end_of place reference start (time_given end) (time_given dur) }
{
    if let Some(end) = end {
        return styling::add_times(reference, end, place);
    }
    match dur {
        Some(dur) => styling::add_times(start, dur, place),
        None => Ok(start),
    }
}

// All three times are evaluated before any sum.
pub fn interval_of(
    attrs: &Attributes<'_>,
    place: usize,
    ctx: TimingCtx,
    reference: i64,
) -> Result<Interval, Refusal>
    ensures { Of attrs.now (λ l.
        timed_said result ≡ interval_of ctx place reference l) }
{
    let begin = time_given(attrs, place, b"begin", ctx)?;
    let end = time_given(attrs, place, b"end", ctx)?;
    let dur = time_given(attrs, place, b"dur", ctx)?;
    let start = styling::add_times(reference, begin.unwrap_or(0), place)?;
    let end = end_of(start, reference, end, dur, place)?;
    Ok(Interval { start, end })
}

// When a single cue begins and ends: its dur is evaluated only if its end is no time.
pub fn single_interval(
    attrs: &Attributes<'_>,
    place: usize,
    ctx: TimingCtx,
) -> Result<Interval, Refusal>
    ensures { Of attrs.now (λ l.
        timed_said result ≡ single_of ctx place l) }
{
    let start = begin_of(attrs, place, ctx)?;
    if let Some(end) = time_given(attrs, place, b"end", ctx)? {
        return Ok(Interval { start, end });
    }
    let end = lasting_to(attrs, place, ctx, start, start)?;
    Ok(Interval { start, end })
}
