// The parameters of tt, in rows of their names without prefixes and their values.
ghost use Rattle.std.specs.Prelude.{◌≡◌, ◌+◌, ◌*◌, ◌≤◌, ◌<◌, ◌^◌, length};
ghost use Rattle.meaning.specs.Kinds.{with_places};
ghost use Rattle.meaning.specs.Meaning.{params_of};
ghost use Rattle.styling.specs.Posts.{Of, NameFits, name_at};
ghost use Rattle.params.specs.Named.{is_param_name};
ghost use Rattle.params.specs.Rows.{ValueFits, SpanIs, Adds, Collects};

use track::{Param, Span};
use tree::ATTR_CELLS;
use xml::Attributes;

// Is attribute k a parameter?
fn is_param_at(attrs: &Attributes<'_>, k: usize) -> bool
    requires { NameFits attrs.now.attrs.now attrs.now.strings.now k }
    ensures { result ≡ is_param_name (name_at attrs.now.attrs.now attrs.now.strings.now k) }
{
    crate::seek::is_param(attrs.name(k))
}

// The name of attribute k after its first colon.
fn name_at(attrs: &Attributes<'_>, k: usize) -> Span
    requires { NameFits attrs.now.attrs.now attrs.now.strings.now k }
    ensures { SpanIs attrs.now.attrs.now attrs.now.strings.now k result }
{
    let name = attrs.name(k);
    let at = scan::strip_ns(name);
    Span {
        place: scan::get(attrs.attrs, k * ATTR_CELLS) + at,
        len: name.len() - at,
    }
}

// Attribute k in the n-th row, if it is a parameter; or there are 64 already.
fn add_at(attrs: &Attributes<'_>, k: usize, params: &mut [u32], n: usize) -> Option<usize>
    requires { NameFits attrs.now.attrs.now attrs.now.strings.now k × ValueFits attrs.now.attrs.now attrs.now.strings.now k
        × (length attrs.now.strings.now < 2 ^ 32) × (256 ≤ length params.old) }
    ensures { Adds attrs.now.attrs.now attrs.now.strings.now k params.old params.new n result }
{
    if !is_param_at(attrs, k) {
        return Some(n);
    }
    let name = name_at(attrs, k);
    let h = xml::attr_at(attrs.attrs, k);
    let value = Span {
        place: h.place,
        len: h.len,
    };
    records::add(params, n, Param { name, value })
}

// The parameters of tt in their rows; or there are more than 64, and the first 64 are.
pub fn collect_params(attrs: &Attributes<'_>, params: &mut [u32]) -> Option<usize>
    requires { (length attrs.now.strings.now < 2 ^ 32) × (256 ≤ length params.old) }
    ensures { Of attrs.now (λ l. Collects (params_of with_places l) params.old params.new result) }
{
    let end = attrs.first + attrs.many;
    let mut n = 0;
    for k in attrs.first..end {
        n = add_at(attrs, k, params, n)?;
    }
    Some(n)
}
