// Attributes whose names match byte for byte.
ghost use Rattle.std.specs.Prelude.{◌≡◌};
ghost use Rattle.styling.specs.Posts.{Of, NameFits, name_at};
ghost use Rattle.params.specs.Named.{is_param_name, sought_by, Meets};

use xml::{Attribute, Attributes};

// The name whole, or a parameter's name without its prefix. (Two tests alone: a function as a parameter reads no plainer.)
#[derive(Clone, Copy)]
pub enum Sought {
    Whole,
    Param,
}

// Does the name begin with `ttp:` or `ittp:`?
pub fn is_param(name: &[u8]) -> bool
    ensures { result ≡ is_param_name name.now }
{
    scan::starts_with(name, 0, b"ttp:") || scan::starts_with(name, 0, b"ittp:")
}

fn is_param_named(found: &[u8], name: &[u8]) -> bool
    ensures { result ≡ sought_by Sought.Param name.now found.now }
{
    is_param(found) && scan::same(&found[scan::strip_ns(found)..], name)
}

fn is_sought(found: &[u8], sought: Sought, name: &[u8]) -> bool
    ensures { result ≡ sought_by sought name.now found.now }
{
    match sought {
        Sought::Whole => scan::same(found, name),
        Sought::Param => is_param_named(found, name),
    }
}

// Is attribute k what is sought?
fn is_row(attrs: &Attributes<'_>, k: usize, sought: Sought, name: &[u8]) -> bool
    requires { NameFits attrs.now.attrs.now attrs.now.strings.now k }
    ensures { result ≡ sought_by sought name.now (name_at attrs.now.attrs.now attrs.now.strings.now k) }
{
    is_sought(attrs.name(k), sought, name)
}

// The first attribute that is.
pub fn seek(attrs: &Attributes<'_>, sought: Sought, name: &[u8]) -> Option<Attribute>
    ensures { Of attrs.now (λ l. Meets attrs.now.strings.now (sought_by sought name.now) l result) }
{
    let end = attrs.first + attrs.many;
    for k in attrs.first..end {
        if is_row(attrs, k, sought, name) {
            return Some(xml::attr_at(attrs.attrs, k));
        }
    }
    None
}
