// Regions.
ghost use Rattle.std.specs.Prelude.{◌≡◌, ◌+◌, ◌*◌, ◌≤◌, ◌<◌, ◌^◌, length};
ghost use Rattle.styling.specs.Posts.{Of, span_in};
ghost use Rattle.heads.specs.Rows.{region_with, Placed, RegionMade};

use track::{REGIONS, Region, Span};
use tree::Refusal;
use xml::Attributes;

// The region of this id in the n-th row, its extras from row `at` on; how many they are.
fn add_named(
    attrs: &Attributes<'_>,
    id: Span,
    regions: &mut [u32],
    n: usize,
    extras: &mut [u32],
    at: usize,
) -> usize
    requires { (length attrs.now.strings.now < 2 ^ 32) × (at + attrs.now.many < 2 ^ 32)
        × ((at + attrs.now.many) * 3 ≤ length extras.old) × (n < 256) × (1024 ≤ length regions.old)
        × (id.place + id.len ≤ length attrs.now.strings.now) }
    ensures upper_bound { result ≤ attrs.now.many }
    ensures of_rows { Of attrs.now (λ l.
        Placed (region_with (span_in attrs.now.strings.now id) l) n at
        regions.old regions.new extras.old extras.new result) }
{
    let rows = extras::collect_region_attrs(attrs, extras, at);
    let count = rows.count;
    records::add(regions, n, Region { id, extras: rows });
    count
}

// The region of the element at a place, as the n-th, its extras from row `at` on. Without an id it is skipped.
pub fn build_region(
    attrs: &Attributes<'_>,
    place: usize,
    regions: &mut [u32],
    n: usize,
    extras: &mut [u32],
    at: usize,
) -> Result<Option<usize>, Refusal>
    requires { (length attrs.now.strings.now < 2 ^ 32) × (at + attrs.now.many < 2 ^ 32)
        × ((at + attrs.now.many) * 3 ≤ length extras.old) × (1024 ≤ length regions.old) }
    ensures { Of attrs.now (λ l.
        RegionMade l place n at regions.old regions.new extras.old extras.new result) }
{
    let Some(h) = params::id_of(attrs) else {
        return Ok(None);
    };
    if REGIONS <= n {
        return Err(Refusal { number: 13, place });
    }
    let id = Span {
        place: h.place,
        len: h.len,
    };
    Ok(Some(add_named(attrs, id, regions, n, extras, at)))
}
