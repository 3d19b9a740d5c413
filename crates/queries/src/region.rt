// A region: what it says itself, and its chain.
ghost use Rattle.queries.specs.Steps.{SpanIn, HasRegions, blank_part, RegionPost, CueRegionPost};
ghost use Rattle.std.specs.Prelude.{◌≡◌};

use crate::kept::Kept;
use track::{Look, Span, Tables};

// A region's own look, and the place of its chain among the strings. Without a region, or a chain, they are blank.
#[derive(Clone, Copy)]
pub struct Part {
    pub look: Look,
    pub chain: Span,
}

// The number of `style` in REGION_ATTR_ORDER.
const STYLE: usize = 50;

fn blank_part() -> Part
    ensures { result ≡ blank_part }
{
    Part {
        look: styles::blank(),
        chain: Span { place: 0, len: 0 },
    }
}

// The part of n regions' first of this id.
pub fn region_part(t: &Tables<'_>, n: usize, id: &[u8]) -> Result<Part, u32>
    requires { HasRegions t.now.regions.now t.now.extras.now t.now.strings.now n }
    ensures { RegionPost t.now.regions.now t.now.extras.now t.now.strings.now n id.now result }
{
    let Some(i) = records::find_region(t.regions, t.strings, n, id) else {
        return Ok(blank_part());
    };
    let region = records::region_at(t.regions, i);
    let kept = Kept {
        extras: t.extras,
        strings: t.strings,
        first: region.extras.first,
        many: region.extras.count,
    };
    let look = crate::own::own_values(&kept)?;
    let value = crate::own::value_of(&kept, STYLE);
    Ok(Part {
        look,
        chain: value.span,
    })
}

// The same of a cue's region, where it has one.
pub fn cue_part(t: &Tables<'_>, n: usize, has: bool, id: Span) -> Result<Part, u32>
    requires { HasRegions t.now.regions.now t.now.extras.now t.now.strings.now n × SpanIn t.now.strings.now id }
    ensures { CueRegionPost t.now.regions.now t.now.extras.now t.now.strings.now n has id result }
{
    if !has {
        return Ok(blank_part());
    }
    let from = id.place;
    let to = from + id.len;
    region_part(t, n, &t.strings[from..to])
}
