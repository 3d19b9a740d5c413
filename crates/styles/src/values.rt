// What a style says, and how one style is laid over another.
ghost use Rattle.std.specs.Prelude.{◌≡◌, cond, ◌||◌};
ghost use Rattle.styles.specs.Values.{align_over, is_start};
ghost use Rattle.styles.specs.Cells.{overlaid, blank_look, is_plain};

use colors::Rgba;
use decimals::Size;
use track::{Align, Look, Span};

// One of the two holds: a call, since with eight `||` in one struct the proof of `overlay_style` did not close.
fn either(a: bool, b: bool) -> bool
    ensures { result ≡ (a || b) }
{
    a || b
}

// A part of the upper style where it has one.
fn over<T: Copy>(below: T, has: bool, above: T) -> T
    ensures { result ≡ cond has above below }
{
    if has { above } else { below }
}

#[tactic(auto, unfolding(crate::specs::Values::align_over))]
fn align_over(below: Align, above: Align) -> Align
    ensures { result ≡ align_over below above }
{
    match above {
        Align::Start => below,
        other => other,
    }
}

#[tactic(auto, unfolding(crate::specs::Values::is_start))]
fn is_start(x: Align) -> bool
    ensures { result ≡ is_start x }
{
    matches!(x, Align::Start)
}

// The Rust's `overlay_style`.
#[tactic(auto, unfolding(crate::specs::Cells::overlaid))]
pub fn overlay_style(below: Look, above: Look) -> Look
    ensures { result ≡ overlaid below above }
{
    Look {
        has_color: either(above.has_color, below.has_color),
        color: over(below.color, above.has_color, above.color),
        has_back: either(above.has_back, below.has_back),
        back: over(below.back, above.has_back, above.back),
        has_family: either(above.has_family, below.has_family),
        family: over(below.family, above.has_family, above.family),
        has_size: either(above.has_size, below.has_size),
        size: over(below.size, above.has_size, above.size),
        bold: either(above.bold, below.bold),
        italic: either(above.italic, below.italic),
        underline: either(above.underline, below.underline),
        strike: either(above.strike, below.strike),
        align: align_over(below.align, above.align),
    }
}

// A style that says nothing (the Rust's `SubtitleStyle::new`).
pub fn blank() -> Look
    ensures { result ≡ blank_look }
{
    let none = Rgba {
        r: 0,
        g: 0,
        b: 0,
        a: 0,
    };
    let family = Span { place: 0, len: 0 };
    let size = Size {
        value: 0.0,
        negative: false,
        digits: 0,
        scale: 0,
    };
    Look {
        has_color: false,
        color: none,
        has_back: false,
        back: none,
        has_family: false,
        family,
        has_size: false,
        size,
        bold: false,
        italic: false,
        underline: false,
        strike: false,
        align: Align::Start,
    }
}

// The Rust's `style_is_unstyled`.
#[tactic(auto, unfolding(crate::specs::Cells::is_plain))]
pub fn style_is_unstyled(x: Look) -> bool
    ensures { result ≡ is_plain x }
{
    !x.has_family
        && !x.has_size
        && !x.has_color
        && !x.has_back
        && !x.bold
        && !x.italic
        && !x.underline
        && !x.strike
        && is_start(x.align)
}
