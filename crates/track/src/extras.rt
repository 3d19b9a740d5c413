// Attributes that are kept as they were: rows of the number of a listed name, and place and length of its
// value.
ghost use Rattle.std.specs.Prelude.{◌≡◌, ◌+◌, ◌*◌, ◌≤◌, length};
ghost use Rattle.track.specs.Meaning.{is_extra, has_extras};

use crate::limits::{EXTRA_CELLS, EXTRAS};

// Is row i an extra: the number of one of `most` names, at least `least`, with its value?
#[tactic(auto, unfolding(crate::specs::Meaning::is_extra, crate::specs::Tables::cell))]
fn is_extra(extras: &[u32], strings: &[u8], most: usize, least: usize, i: usize) -> bool
    requires { i * 3 + 3 ≤ length extras.now }
    ensures { result ≡ is_extra extras.now strings.now most least i }
{
    let at = i * EXTRA_CELLS;
    let number = scan::get(extras, at);
    let place = scan::get(extras, at + 1);
    let len = scan::get(extras, at + 2);
    least <= number && number < most && crate::strings::is_span(strings, place, len)
}

// Are the n rows from row `first` on extras, in the order of their list of `most` names, none twice?
pub fn has_extras(extras: &[u32], strings: &[u8], most: usize, first: usize, n: usize) -> bool
    requires { 24576 ≤ length extras.now }
    ensures { result ≡ has_extras extras.now strings.now most first n }
{
    if EXTRAS < first || EXTRAS - first < n {
        return false;
    }
    let mut least = 0;
    for i in first..first + n {
        if !is_extra(extras, strings, most, least, i) {
            return false;
        }
        least = scan::get(extras, i * EXTRA_CELLS) + 1;
    }
    true
}
