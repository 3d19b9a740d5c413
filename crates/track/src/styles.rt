// Named styles and regions.
ghost use Rattle.std.specs.Prelude.{◌≡◌, ◌+◌, ◌*◌, ◌≤◌, length};
ghost use Rattle.track.specs.Meaning.{style_strings, style_values, style_flags, is_style, is_region, all_rows};

use crate::cells::{is_color, is_flag, is_size_at};
use crate::extras::has_extras;
use crate::handed::Tables;
use crate::limits::{REGION_CELLS, STYLE_CELLS};
use crate::strings::{is_optional, is_span};

// How many names the lists of extras have: STYLE_EXTRA_ORDER and REGION_ATTR_ORDER.
const STYLE_NAMES: usize = 46;

const REGION_NAMES: usize = 53;

// The strings of the style whose row begins at a cell: name, chain, family.
#[tactic(auto, unfolding(crate::specs::Meaning::style_strings))]
fn style_strings(styles: &[u32], strings: &[u8], at: usize) -> bool
    requires { at + 27 ≤ length styles.now }
    ensures { result ≡ style_strings styles.now strings.now at }
{
    let name = scan::get(styles, at);
    let chain = scan::get(styles, at + 2);
    let family = scan::get(styles, at + 15);
    is_span(strings, name, scan::get(styles, at + 1))
        && is_span(strings, chain, scan::get(styles, at + 3))
        && is_optional(
            strings,
            scan::get(styles, at + 14),
            family,
            scan::get(styles, at + 16),
        )
}

// Its flags and its alignment.
#[tactic(auto, unfolding(crate::specs::Meaning::style_flags))]
fn style_flags(styles: &[u32], at: usize) -> bool
    requires { at + 27 ≤ length styles.now }
    ensures { result ≡ style_flags styles.now at }
{
    is_flag(styles[at + 20])
        && is_flag(styles[at + 21])
        && is_flag(styles[at + 22])
        && is_flag(styles[at + 23])
        && styles[at + 24] <= 4
}

// Its colours and its size.
#[tactic(auto, unfolding(crate::specs::Meaning::style_values))]
fn style_values(styles: &[u32], at: usize, size: f32) -> bool
    requires { at + 27 ≤ length styles.now }
    ensures { result ≡ style_values styles.now size at }
{
    is_color(styles, at + 4)
        && is_color(styles, at + 9)
        && is_size_at(styles[at + 17], styles[at + 18], styles[at + 19], size)
}

// Is row i a style?
#[tactic(auto, unfolding(crate::specs::Meaning::is_style))]
fn is_style(t: &Tables<'_>, i: usize) -> bool
    requires { (i * 27 + 27 ≤ length t.now.styles.now) × (i + 1 ≤ length t.now.sizes.now) × (24576 ≤ length t.now.extras.now) }
    ensures { result ≡ is_style t.now.styles.now t.now.sizes.now t.now.extras.now t.now.strings.now i }
{
    let at = i * STYLE_CELLS;
    let first = scan::get(t.styles, at + 25);
    let n = scan::get(t.styles, at + 26);
    style_strings(t.styles, t.strings, at)
        && style_values(t.styles, at, t.sizes[i])
        && style_flags(t.styles, at)
        && has_extras(t.extras, t.strings, STYLE_NAMES, first, n)
}

// Are the first n rows styles?
pub fn are_styles(t: &Tables<'_>, n: usize) -> bool
    requires { (n * 27 ≤ length t.now.styles.now) × (n ≤ length t.now.sizes.now) × (24576 ≤ length t.now.extras.now) }
    ensures { result ≡ all_rows (is_style t.now.styles.now t.now.sizes.now t.now.extras.now t.now.strings.now) n 0 }
{
    for i in 0..n {
        if !is_style(t, i) {
            return false;
        }
    }
    true
}

// Is row i a region?
#[tactic(auto, unfolding(crate::specs::Meaning::is_region, crate::specs::Tables::cell))]
fn is_region(t: &Tables<'_>, i: usize) -> bool
    requires { (i * 4 + 4 ≤ length t.now.regions.now) × (24576 ≤ length t.now.extras.now) }
    ensures { result ≡ is_region t.now.regions.now t.now.extras.now t.now.strings.now i }
{
    let at = i * REGION_CELLS;
    let id = scan::get(t.regions, at);
    let first = scan::get(t.regions, at + 2);
    let n = scan::get(t.regions, at + 3);
    is_span(t.strings, id, scan::get(t.regions, at + 1))
        && has_extras(t.extras, t.strings, REGION_NAMES, first, n)
}

// Are the first n rows regions?
pub fn are_regions(t: &Tables<'_>, n: usize) -> bool
    requires { (n * 4 ≤ length t.now.regions.now) × (24576 ≤ length t.now.extras.now) }
    ensures { result ≡ all_rows (is_region t.now.regions.now t.now.extras.now t.now.strings.now) n 0 }
{
    for i in 0..n {
        if !is_region(t, i) {
            return false;
        }
    }
    true
}
