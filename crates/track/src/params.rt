// Parameters of tt.
ghost use Rattle.std.specs.Prelude.{◌≡◌, ◌+◌, ◌*◌, ◌≤◌, length};
ghost use Rattle.track.specs.Meaning.{is_param, all_rows};

use crate::handed::Tables;
use crate::limits::PARAM_CELLS;
use crate::strings::is_span;
use scan::Class;

// Is row i a parameter? Its name has no byte that would end it in a start tag.
#[tactic(auto, unfolding(crate::specs::Meaning::is_param, crate::specs::Tables::cell))]
fn is_param(t: &Tables<'_>, i: usize) -> bool
    requires { i * 4 + 4 ≤ length t.now.params.now }
    ensures { result ≡ is_param t.now.params.now t.now.strings.now i }
{
    let at = i * PARAM_CELLS;
    let name = scan::get(t.params, at);
    let len = scan::get(t.params, at + 1);
    let value = scan::get(t.params, at + 2);
    is_span(t.strings, name, len)
        && is_span(t.strings, value, scan::get(t.params, at + 3))
        && scan::over(&t.strings[name..name + len], 0, Class::AttrName) == len
}

// Are the first n rows parameters?
pub fn are_params(t: &Tables<'_>, n: usize) -> bool
    requires { n * 4 ≤ length t.now.params.now }
    ensures { result ≡ all_rows (is_param t.now.params.now t.now.strings.now) n 0 }
{
    for i in 0..n {
        if !is_param(t, i) {
            return false;
        }
    }
    true
}
